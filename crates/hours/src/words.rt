// An answer as words of 64 bits. SCOPE 9.8. The words have names in layout.rt.
ghost use Rattle.std.specs.Prelude.{◌≡◌};
ghost use Rattle.hours.specs.Answer.{asked_of};
ghost use Rattle.wire.specs.Answer.{maybe};
ghost use Rattle.hours.specs.Words.{told_words, answer_reply};

use crate::{Refusal, Told, layout};
use wire::field::of_i64;
use wire::word::flag;

// A refusal's number, 0 for none, and the words of an answer, all 0 where it is refused.
#[derive(Clone, Copy)]
pub struct AnswerReply {
    pub refusal: u64,
    pub words: [u64; layout::HOURS_WORDS],
}

fn told_words(state: bool, change: Option<i64>) -> [u64; layout::HOURS_WORDS]
    ensures { result ≡ told_words state (maybe change) }
{
    match change {
        Some(moment) => [flag(state), 1, of_i64(moment)],
        None => [flag(state), 0, 0],
    }
}

pub fn answer_reply(answer: Result<Told, Refusal>) -> AnswerReply
    ensures { (result.refusal, result.words) ≡ answer_reply (asked_of answer) }
{
    match answer {
        Ok(told) => AnswerReply {
            refusal: 0,
            words: told_words(told.is_open, told.change),
        },
        Err(r) => AnswerReply {
            refusal: r.number() as u64,
            words: [0, 0, 0],
        },
    }
}
