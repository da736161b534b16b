// Turn and Drain: the round that a run makes between two waits.
ghost use Rattle.std.specs.Prelude.{◌≡◌, ℕ, ◌≤◌, List, length, nat_le, nat_lt};
ghost use Rattle.worker.specs.Answer.{lent, outcome_by};
ghost use Rattle.worker.specs.Tests.{both};
ghost use Rattle.worker.specs.Step.{turn_of, drain_of, waits};

use crate::changes::{cell_in, wait_begun, with_cell, with_drained, with_pending, with_state};
use crate::ends::{done, moved};
use crate::status::{is_above, send_feedback, status_due};
use crate::{Event, Input, Run, State, Stepped};

// The count of drained messages begins anew.
pub(crate) fn turn(run: Run, input: Input, out: &mut [u8]) -> Stepped
    requires { 39 ≤ length out.old }
    ensures { (u p : List ℕ) → outcome_by result p out.new ≡ turn_of run input (lent u p out.old) }
{
    let next = with_drained(0, run);
    if status_due(run) {
        return send_feedback(false, State::Drain, next, input, out);
    }
    moved(with_state(State::Drain, next))
}

// The signal is cleared, and what is pending is fixed for the wait.
fn waits(run: Run) -> Run
    ensures { result ≡ waits run }
{
    let cell = cell_in(run);
    let looked = cell.take_signal();
    let cleared = looked.cell;
    let pending = is_above(run);
    let next = with_pending(pending, with_cell(cleared, run));
    with_state(State::Waiting, wait_begun(next))
}

fn goes_on(run: Run, unread: &[u8]) -> bool
    ensures { result ≡ both (nat_lt run.drained 256) (nat_le 5 (length unread.now)) }
{
    if run.drained < 256 {
        return 5 <= unread.len();
    }
    false
}

// A round has at most 256 messages; stop is looked at only after one of them.
pub(crate) fn drain(run: Run, input: Input, unread: &[u8], out: &mut [u8]) -> Stepped
    requires { 39 ≤ length out.old }
    ensures { (p : List ℕ) → outcome_by result p out.new ≡ drain_of run input (lent unread.now p out.old) }
{
    if goes_on(run, unread) {
        return moved(with_state(State::Reading, run));
    }
    if run.drained == 0 {
        return moved(waits(run));
    }
    if input.stop {
        return done(Event::Nothing, run, out);
    }
    moved(with_state(State::Turn, run))
}
