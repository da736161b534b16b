#![tactic(auto)]
// A bench load: a server's stream of so many messages from a seed, and what each of them is. Document 02, wish 13.
mod draw;
pub mod layout;
mod place;
pub mod words;

ghost use Rattle.std.specs.Prelude.{◌≡◌, ◌≤◌, length};
ghost use Rattle.wire.specs.Answer.{maybe};
ghost use Rattle.wire.specs.Bytes.{put};
ghost use Rattle.error.specs.Writer.{counted};
ghost use Rattle.load.specs.Load.{number_of, made_of, stream_of, outcome, loading};

// What a message says: a keepalive's end and whether it asks for a reply; of XLogData start and end, and of its data the values of a Begin or
// a Commit, or how many letters follow an `I`. Times and flags are 0.
#[derive(Clone, Copy)]
pub enum Message {
    KeepAlive {
        end: u64,
        reply: bool,
    },
    Begin {
        start: u64,
        end: u64,
        final_lsn: u64,
        xid: u32,
    },
    Data {
        start: u64,
        end: u64,
        letters: u8,
    },
    Commit {
        start: u64,
        end: u64,
        lsn: u64,
        end_lsn: u64,
    },
}

// A message, and the state from which the next one is drawn.
#[derive(Clone, Copy)]
pub struct Made {
    pub message: Message,
    pub state: u64,
}

#[derive(Clone, Copy)]
pub enum Refusal {
    Writer(error::Refusal), // a writer's own: the stream is longer than the output
    SeedZero, // from 0 only 0 is drawn
}

impl Refusal {
    // The refusal's number.
    pub fn number(self) -> u8
        ensures { result ≡ number_of self }
    {
        match self {
            Refusal::Writer(r) => r.number(),
            Refusal::SeedZero => 35,
        }
    }
}

// The message that is drawn from a state. A seed is a state.
pub fn message_from(state: u64) -> Made
    ensures { result ≡ made_of state }
{
    let kind = draw::next(state);
    let a = draw::next(kind);
    let b = draw::next(a);
    if kind % 4 == 0 {
        return draw::keep_alive(a, b);
    }
    let c = draw::next(b);
    if kind % 4 == 2 {
        return draw::other(a, b, c);
    }
    let d = draw::next(c);
    if kind % 4 == 1 {
        return draw::begin(a, b, c, d);
    }
    draw::commit(a, b, c, d)
}

// The length of the stream, as far as the room goes.
fn measure(seed: u64, messages: u64, room: usize) -> Option<usize>
    ensures { maybe result ≡ counted room (length (stream_of messages seed)) }
{
    let mut used: usize = 0;
    let mut state = seed;
    for _ in 0..messages {
        let m = message_from(state);
        let message = m.message;
        let n = place::message_len(message);
        if room - used < n {
            return None;
        }
        used += n;
        state = m.state;
    }
    Some(used)
}

fn fill(seed: u64, messages: u64, out: &mut [u8])
    requires { length (stream_of messages seed) ≤ length out.old }
    ensures { out.new ≡ put out.old 0 (stream_of messages seed) }
{
    let mut at: usize = 0;
    let mut state = seed;
    for _ in 0..messages {
        let m = message_from(state);
        let message = m.message;
        at = place::message(out, at, message);
        state = m.state;
    }
}

// Writes the stream of so many messages from a seed. How many bytes were written.
pub fn write_load(seed: u64, messages: u64, out: &mut [u8]) -> Result<usize, Refusal>
    ensures { (outcome result, out.new) ≡ loading seed messages out.old }
{
    if seed == 0 {
        return Err(Refusal::SeedZero);
    }
    let Some(n) = measure(seed, messages, out.len()) else {
        return Err(Refusal::Writer(error::Refusal::OutputTooShort));
    };
    fill(seed, messages, out);
    Ok(n)
}
