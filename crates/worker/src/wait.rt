// Waiting: what ends a wait, test by test in the order of the step table.
ghost use Rattle.std.specs.Prelude.{◌≡◌, ℕ, ◌≤◌, true, List, length, ◌==◌, nat_le};
ghost use Rattle.wire.specs.Bytes.{pick};
ghost use Rattle.moment.specs.Moment.{since_of};
ghost use Rattle.framing.specs.Read.{said_by};
ghost use Rattle.progress.specs.Progress.{cell_signal};
ghost use Rattle.worker.specs.Answer.{lent, outcome_by};
ghost use Rattle.worker.specs.Tests.{both, unless};
ghost use Rattle.worker.specs.Run.{cell_in};
ghost use Rattle.worker.specs.Step.{interval_passed, idle_of, waiting_by, waiting_read, waiting_of};

use crate::changes::{with_reader, with_state};
use crate::ends::{done, ended, having, moved};
use crate::receive::to_handle;
use crate::status::{interval_passed, send_feedback};
use crate::{Event, Input, Run, State, Stepped};
use error::Refusal;
use framing::Whole;

fn pending_due(run: Run) -> bool
    ensures { result ≡ both run.pending (interval_passed run) }
{
    if run.pending {
        return interval_passed(run);
    }
    false
}

fn is_woken(run: Run) -> bool
    ensures { result ≡ unless run.pending (cell_signal (cell_in run)) }
{
    if run.pending {
        return false;
    }
    run.progress.signalled
}

fn is_readable(unread: &[u8], ended: bool) -> bool
    ensures { result ≡ pick (length unread.now == 0) ended true }
{
    if unread.len() == 0 {
        return ended;
    }
    true
}

fn idle_passed(run: Run) -> bool
    ensures { result ≡ nat_le run.settings.idle_wakeup_interval (since_of run.clock.last run.clock.wait_began) }
{
    let now = run.clock.last;
    let began = run.clock.wait_began;
    run.settings.idle_wakeup_interval <= now.since(began)
}

fn idle(run: Run, input: Input, out: &mut [u8]) -> Stepped
    requires { 39 ≤ length out.old }
    ensures { (u p : List ℕ) → outcome_by result p out.new ≡ idle_of run input (lent u p out.old) }
{
    if idle_passed(run) {
        return send_feedback(false, State::Turn, run, input, out);
    }
    moved(run)
}

fn waiting_by(
    answer: Result<Option<Whole>, Refusal>,
    run: Run,
    input: Input,
    out: &mut [u8],
) -> Stepped
    requires { 39 ≤ length out.old }
    ensures { (u p : List ℕ) → outcome_by result p out.new ≡ waiting_by (said_by answer) run input (lent u p out.old) }
{
    match answer {
        Ok(None) => idle(run, input, out),
        Ok(Some(whole)) => to_handle(whole.tag, whole.len, true, run),
        Err(refusal) => ended(refusal, run),
    }
}

fn waiting_read(
    run: Run,
    input: Input,
    unread: &[u8],
    payload: &mut [u8],
    out: &mut [u8],
) -> Stepped
    requires { 39 ≤ length out.old }
    ensures { outcome_by result payload.new out.new
        ≡ waiting_read run input (lent unread.now payload.old out.old) }
{
    let reader = run.reader;
    let x = reader.read(run.settings.max_message_size, unread, input.ended, payload);
    let answer = x.answer;
    let after = x.reader;
    let stepped = waiting_by(answer, with_reader(after, run), input, out);
    having(x.taken, stepped)
}

pub(crate) fn waiting(
    run: Run,
    input: Input,
    unread: &[u8],
    payload: &mut [u8],
    out: &mut [u8],
) -> Stepped
    requires { 39 ≤ length out.old }
    ensures { outcome_by result payload.new out.new
        ≡ waiting_of run input (lent unread.now payload.old out.old) }
{
    if input.stop {
        return done(Event::Nothing, run, out);
    }
    if pending_due(run) {
        return send_feedback(false, State::Turn, run, input, out);
    }
    if is_woken(run) {
        return moved(with_state(State::Turn, run));
    }
    if is_readable(unread, input.ended) {
        return waiting_read(run, input, unread, payload, out);
    }
    idle(run, input, out)
}
