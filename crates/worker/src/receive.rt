// Opening and Reading: the run takes unread bytes, and looks neither at the clock nor at a stop.
ghost use Rattle.std.specs.Prelude.{◌≡◌, ℕ, List};
ghost use Rattle.framing.specs.Read.{said_by, whole};
ghost use Rattle.metrics.specs.Metrics.{more};
ghost use Rattle.worker.specs.Run.{with_drained};
ghost use Rattle.worker.specs.Answer.{lent, outcome_by};
ghost use Rattle.worker.specs.Step.{Lent, moved, opening_by, opening_of, to_handle, reading_by, reading_of};

use crate::changes::{with_drained, with_reader, with_state, with_whole};
use crate::ends::{ended, having, moved};
use crate::{Input, Run, State, Stepped};
use error::Refusal;
use framing::Whole;
use framing::tag::{is_copy_both_response, is_error};

// `W` begins the stream, `E` ends the run with its message kept for `error_part`, all else is skipped.
fn opening_whole(tag: u8, n: usize, run: Run) -> Stepped
    ensures { (l : Lent) → outcome_by result l.payload l.out ≡ opening_by (whole tag n) run l }
{
    if is_copy_both_response(tag) {
        return moved(with_state(State::Turn, run));
    }
    if is_error(tag) {
        return ended(Refusal::ServerError, with_whole(tag, n, false, run));
    }
    moved(run)
}

fn opening_by(answer: Result<Option<Whole>, Refusal>, run: Run) -> Stepped
    ensures { (l : Lent) → outcome_by result l.payload l.out ≡ opening_by (said_by answer) run l }
{
    match answer {
        Ok(None) => moved(run),
        Ok(Some(whole)) => opening_whole(whole.tag, whole.len, run),
        Err(refusal) => ended(refusal, run),
    }
}

// The step that makes a message whole tests it, too.
pub(crate) fn opening(run: Run, input: Input, unread: &[u8], payload: &mut [u8]) -> Stepped
    ensures { (o : List ℕ) → outcome_by result payload.new o
        ≡ opening_of run input (lent unread.now payload.old o) }
{
    let reader = run.reader;
    let x = reader.read(run.settings.max_message_size, unread, input.ended, payload);
    let answer = x.answer;
    let after = x.reader;
    having(x.taken, opening_by(answer, with_reader(after, run)))
}

fn drained(run: Run) -> Run
    ensures { result ≡ with_drained (more run.drained 1) run }
{
    let n = std::num::wrapping_add_u64(run.drained, 1);
    with_drained(n, run)
}

// The next step handles the message.
pub(crate) fn to_handle(tag: u8, n: usize, in_wait: bool, run: Run) -> Stepped
    ensures { (l : Lent) → outcome_by result l.payload l.out ≡ moved (to_handle tag n in_wait run) l }
{
    moved(with_state(State::Handling, with_whole(tag, n, in_wait, run)))
}

fn reading_by(answer: Result<Option<Whole>, Refusal>, run: Run) -> Stepped
    ensures { (l : Lent) → outcome_by result l.payload l.out ≡ reading_by (said_by answer) run l }
{
    match answer {
        Ok(None) => moved(run),
        Ok(Some(whole)) => to_handle(whole.tag, whole.len, false, drained(run)),
        Err(refusal) => ended(refusal, run),
    }
}

pub(crate) fn reading(run: Run, input: Input, unread: &[u8], payload: &mut [u8]) -> Stepped
    ensures { (o : List ℕ) → outcome_by result payload.new o
        ≡ reading_of run input (lent unread.now payload.old o) }
{
    let reader = run.reader;
    let x = reader.read(run.settings.max_message_size, unread, input.ended, payload);
    let answer = x.answer;
    let after = x.reader;
    having(x.taken, reading_by(answer, with_reader(after, run)))
}
