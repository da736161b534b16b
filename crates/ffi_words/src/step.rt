// What a step is handed as words, and what it answers. SCOPE 9.2, 5.4, 5.5.
// Kinds, refusals and flags are numbers here: the C interface.
ghost use Rattle.std.specs.Prelude.{◌≡◌};
ghost use Rattle.wire.specs.Answer.{maybe};
ghost use Rattle.progress.specs.Files.{file_verdict};
ghost use Rattle.worker.specs.Answer.{verdict_number};
ghost use Rattle.worker.specs.Events.{said_by};
ghost use Rattle.ffi_words.specs.Step.{queue_of, input_of, waited_words, clipped, answer_words};

use crate::event::{clip, event_words};
use crate::layout;
use error::Refusal;
use moment::Moment;
use progress::files::FileRefusal;
use worker::{Input, Queue, Stepped};

// Every other word is a closed queue.
pub fn queue_of(n: u64) -> Queue
    ensures { result ≡ queue_of n }
{
    match n {
        layout::QUEUE_FREE => Queue::Free,
        layout::QUEUE_FULL => Queue::Full,
        _ => Queue::Closed,
    }
}

pub fn input_of(moment: u64, client_time: i64, stop: bool, queue: u64, ended: bool) -> Input
    ensures { result ≡ input_of moment client_time stop queue ended }
{
    let queue = queue_of(queue);
    Input {
        moment: Moment(moment),
        client_time,
        stop,
        queue,
        ended,
    }
}

pub fn verdict_word(verdict: Result<(), Refusal>) -> u64
    ensures { result ≡ verdict_number verdict }
{
    match verdict {
        Ok(()) => 0,
        Err(r) => r.number() as u64,
    }
}

// A report's.
pub fn file_verdict_word(verdict: Result<(), FileRefusal>) -> u64
    ensures { result ≡ file_verdict verdict }
{
    match verdict {
        Ok(()) => 0,
        Err(r) => r.number() as u64,
    }
}

fn waited_words(waited: Option<u64>) -> [u64; 2]
    ensures { result ≡ waited_words (maybe waited) }
{
    match waited {
        None => [0, 0],
        Some(n) => [1, n],
    }
}

// The event's parts are named as far as a payload buffer of so many bytes has them.
pub fn answer_words(s: Stepped, payload_len: usize) -> [u64; layout::ANSWER_WORDS]
    ensures { result
        ≡ answer_words (verdict_number s.verdict) s.taken s.written (maybe s.waited) (clipped payload_len (said_by s.event)) }
{
    let verdict = s.verdict;
    let refusal = verdict_word(verdict);
    let taken = s.taken as u64;
    let written = s.written as u64;
    let waited = s.waited;
    let w = waited_words(waited);
    let event = s.event;
    let e = event_words(clip(payload_len, event));
    [
        refusal, taken, written, w[0], w[1], e[0], e[1], e[2], e[3], e[4], e[5], e[6],
    ]
}
