// What a writing answered, and the event of a message, as words of 64 bits. SCOPE 9.9. Their number has a name in layout.rt.
ghost use Rattle.std.specs.Prelude.{◌≡◌};
ghost use Rattle.load.specs.Load.{outcome};
ghost use Rattle.load.specs.Words.{event_words};

use crate::{Message, Refusal, layout};
use wire::word::flag;

// A refusal's number, 0 for none, and how many bytes were written.
#[derive(Clone, Copy)]
pub struct LoadedReply {
    pub refusal: u64,
    pub written: u64,
}

pub fn loaded_reply(answer: Result<usize, Refusal>) -> LoadedReply
    ensures { (result.refusal, result.written) ≡ outcome answer }
{
    match answer {
        Ok(n) => LoadedReply {
            refusal: 0,
            written: n as u64,
        },
        Err(r) => LoadedReply {
            refusal: r.number() as u64,
            written: 0,
        },
    }
}

// Other data begins at place 25 of a payload.
pub fn event_words(m: Message) -> [u64; layout::LOAD_WORDS]
    ensures { result ≡ event_words m }
{
    match m {
        Message::KeepAlive { end, reply } => [1, end, 0, flag(reply), 0, 0, 0],
        Message::Begin {
            start: _,
            end: _,
            final_lsn,
            xid,
        } => [2, final_lsn, 0, xid as u64, 0, 0, 0],
        Message::Data {
            start,
            end,
            letters,
        } => [5, start, end, 0, 25, letters as u64 + 1, 0],
        Message::Commit {
            start: _,
            end: _,
            lsn,
            end_lsn,
        } => [3, lsn, end_lsn, 0, 0, 0, 0],
    }
}
