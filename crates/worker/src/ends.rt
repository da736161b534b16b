// The ends of a step: how each case of the step table answers.
ghost use Rattle.std.specs.Prelude.{◌≡◌, ℕ, ◌≤◌, List, length};
ghost use Rattle.error.specs.Refusal.{number_of};
ghost use Rattle.worker.specs.Answer.{lent, outcome_by};
ghost use Rattle.worker.specs.Step.{Lent, handing, moved, refused_with, ended_with, done_with, having};

use crate::changes::with_state;
use crate::{Event, Run, State, Stepped};
use error::Refusal;

// An event is handed on; besides it only the run changes.
pub(crate) fn handing(event: Event, run: Run) -> Stepped
    ensures { (l : Lent) → outcome_by result l.payload l.out ≡ handing event run l }
{
    Stepped {
        run,
        verdict: Ok(()),
        taken: 0,
        event,
        written: 0,
        waited: None,
    }
}

pub(crate) fn moved(run: Run) -> Stepped
    ensures { (l : Lent) → outcome_by result l.payload l.out ≡ moved run l }
{
    handing(Event::Nothing, run)
}

pub(crate) fn refused(refusal: Refusal, run: Run) -> Stepped
    ensures { (l : Lent) → outcome_by result l.payload l.out ≡ refused_with (number_of refusal) run l }
{
    Stepped {
        run,
        verdict: Err(refusal),
        taken: 0,
        event: Event::Nothing,
        written: 0,
        waited: None,
    }
}

pub(crate) fn ended(refusal: Refusal, run: Run) -> Stepped
    ensures { (l : Lent) → outcome_by result l.payload l.out ≡ ended_with (number_of refusal) run l }
{
    refused(refusal, with_state(State::Ended, run))
}

// A CopyDone is written, and the run ends.
pub(crate) fn done(event: Event, run: Run, out: &mut [u8]) -> Stepped
    requires { 39 ≤ length out.old }
    ensures { (u p : List ℕ) → outcome_by result p out.new ≡ done_with event run (lent u p out.old) }
{
    // It fits, since the output has at least 39 bytes.
    let _ = frontend::write_copy_done(out);
    let ended = with_state(State::Ended, run);
    Stepped {
        run: ended,
        verdict: Ok(()),
        taken: 0,
        event,
        written: 5,
        waited: None,
    }
}

// The answer of a step that read: what the read led to, with the number of bytes that it took.
pub(crate) fn having(taken: usize, mut stepped: Stepped) -> Stepped
    ensures { (p q o : List ℕ) → outcome_by result p o ≡ having taken p (outcome_by stepped q o) }
{
    stepped.taken = taken;
    stepped
}
