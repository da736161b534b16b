// One step of a run.
ghost use Rattle.std.specs.Prelude.{◌≡◌, ◌≤◌, length};
ghost use Rattle.worker.specs.Answer.{lent, outcome_by};
ghost use Rattle.worker.specs.Step.{step_in, is_ended, bad_moment, step_of};

use crate::changes::accepted;
use crate::deliver::offering;
use crate::ends::refused;
use crate::handle::handling;
use crate::receive::{opening, reading};
use crate::rounds::{drain, turn};
use crate::wait::waiting;
use crate::{Input, Run, State, Stepped};
use error::Refusal;
use moment::Moment;

pub(crate) fn is_ended(state: State) -> bool
    ensures { result ≡ is_ended state }
{
    matches!(state, State::Ended)
}

fn bad_moment(run: Run, m: Moment) -> bool
    ensures { result ≡ bad_moment run m }
{
    if m.is_in_range() {
        return m.is_before(run.clock.last);
    }
    true
}

// The case of a state.
fn by_state(
    state: State,
    run: Run,
    input: Input,
    unread: &[u8],
    payload: &mut [u8],
    out: &mut [u8],
) -> Stepped
    requires { 39 ≤ length out.old }
    ensures { outcome_by result payload.new out.new
        ≡ step_in state run input (lent unread.now payload.old out.old) }
{
    match state {
        State::Opening => opening(run, input, unread, payload),
        State::Turn => turn(run, input, out),
        State::Drain => drain(run, input, unread, out),
        State::Reading => reading(run, input, unread, payload),
        State::Waiting => waiting(run, input, unread, payload, out),
        State::Handling => handling(run, input, payload, out),
        State::Offering => offering(run, input, out),
        State::Ended => refused(Refusal::RunEnded, run),
    }
}

// 2 to 5 change nothing; then the state's case.
pub fn step(run: Run, input: Input, unread: &[u8], payload: &mut [u8], out: &mut [u8]) -> Stepped
    ensures { outcome_by result payload.new out.new
        ≡ step_of run input (lent unread.now payload.old out.old) }
{
    let state = run.state;
    if is_ended(state) {
        return refused(Refusal::RunEnded, run);
    }
    if payload.len() < framing::limit_of(run.settings.max_message_size) {
        return refused(Refusal::PayloadBufferTooShort, run);
    }
    if out.len() < 39 {
        return refused(Refusal::OutputTooShort, run);
    }
    let moment = input.moment;
    let next = accepted(moment, run);
    if bad_moment(run, moment) {
        return refused(Refusal::MomentOutOfOrder, run);
    }
    by_state(state, next, input, unread, payload, out)
}
