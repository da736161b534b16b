// The messages that a host sends outside the stream. Refused, the output is as it was and nothing was written. SCOPE 9.4, 3.5, 3.6, 3.7.
ghost use Rattle.std.specs.Prelude.{◌≡◌};
ghost use Rattle.ffi_answers.specs.Texts.{startup_call, query_call, copy_done_call, terminate_call, status_call};

use ffi_answers::reply::written_reply;
use lsn::Lsn;

// ---- messages of the client: refused, out is as it was and written is 0

// A startup message; its texts are names and values in turn. Answers the refusal (25, 4).
#[unsafe(no_mangle)]
pub extern "C" fn rufflesquash_write_startup(
    version: i32,
    texts: &[&[u8]],
    out: &mut [u8],
    written: &mut u64,
) -> u64
    ensures { ((result, written.new), out.new) ≡ startup_call version texts.now out.old }
{
    let reply = written_reply(frontend::write_startup(version, texts, out));
    *written = reply.value;
    reply.refusal
}

// A simple query. Answers the refusal (25, 4).
#[unsafe(no_mangle)]
pub extern "C" fn rufflesquash_write_query(text: &[u8], out: &mut [u8], written: &mut u64) -> u64
    ensures { ((result, written.new), out.new) ≡ query_call text.now out.old }
{
    let reply = written_reply(frontend::write_query(text, out));
    *written = reply.value;
    reply.refusal
}

// A CopyDone. Answers the refusal (4).
#[unsafe(no_mangle)]
pub extern "C" fn rufflesquash_write_copy_done(out: &mut [u8], written: &mut u64) -> u64
    ensures { ((result, written.new), out.new) ≡ copy_done_call out.old }
{
    let reply = written_reply(frontend::write_copy_done(out));
    *written = reply.value;
    reply.refusal
}

// A Terminate. Answers the refusal (4).
#[unsafe(no_mangle)]
pub extern "C" fn rufflesquash_write_terminate(out: &mut [u8], written: &mut u64) -> u64
    ensures { ((result, written.new), out.new) ≡ terminate_call out.old }
{
    let reply = written_reply(frontend::write_terminate(out));
    *written = reply.value;
    reply.refusal
}

// A status that confirms a position in all its three places, 39 bytes. Answers the refusal (4).
#[unsafe(no_mangle)]
pub extern "C" fn rufflesquash_write_status(
    position: u64,
    client_time: i64,
    reply: bool,
    out: &mut [u8],
    written: &mut u64,
) -> u64
    ensures { ((result, written.new), out.new) ≡ status_call position client_time reply out.old }
{
    let answer = written_reply(frontend::write_status_update(
        Lsn(position),
        client_time,
        reply,
        out,
    ));
    *written = answer.value;
    answer.refusal
}
