// A bench load. SCOPE 9.9.
ghost use Rattle.std.specs.Prelude.{◌≡◌};
ghost use Rattle.load.specs.Words.{load_call, load_event_call};

use load::layout;
use load::words::{event_words, loaded_reply};

// ---- a load for benchmarks

// Writes so many messages of a server, drawn from a seed, over the front of out: CopyData with keepalives, Begins, Commits and other data in turn as
// they are drawn. Answers the refusal (35 for a seed of 0, then 4); refused, out is as it was and written is 0.
#[unsafe(no_mangle)]
pub extern "C" fn rufflesquash_load(
    seed: u64,
    messages: u64,
    out: &mut [u8],
    written: &mut u64,
) -> u64
    ensures { ((result, written.new), out.new) ≡ load_call seed messages out.old }
{
    let reply = loaded_reply(load::write_load(seed, messages, out));
    *written = reply.written;
    reply.refusal
}

// The event of the message that is drawn from a state, of which the first is the seed. Answers the next state.
//
// It is the event that a run hands on that was opened already and has no stop position; the data of an XLogData begin at place 25 of its payload.
#[unsafe(no_mangle)]
pub extern "C" fn rufflesquash_load_event(state: u64, event: &mut [u64; layout::LOAD_WORDS]) -> u64
    ensures { (result, event.new) ≡ load_event_call state }
{
    let made = load::message_from(state);
    let message = made.message;
    *event = event_words(message);
    made.state
}
