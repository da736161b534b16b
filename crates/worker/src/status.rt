// When a status is due, and what sending one does to the run.
ghost use Rattle.std.specs.Prelude.{◌≡◌, ℕ, ◌≤◌, true, List, length};
ghost use Rattle.wire.specs.Answer.{maybe};
ghost use Rattle.wire.specs.Bytes.{pick};
ghost use Rattle.progress.specs.Progress.{cell_position, reported_of};
ghost use Rattle.worker.specs.Answer.{lent, outcome_by};
ghost use Rattle.worker.specs.Run.{cell_in, last_status, with_last_status};
ghost use Rattle.worker.specs.Step.{interval_passed, is_above, takes_pending, waited_by, confirmed, feedback_of, status_due};

use crate::changes::{cell_in, with_cell, with_metrics, with_state};
use crate::session::position;
use crate::{Event, Input, LastStatus, Run, State, Stepped};
use progress::ProgressCell;

pub(crate) fn interval_passed(run: Run) -> bool
    ensures { result ≡ interval_passed run }
{
    let now = run.clock.last;
    let at = run.status.at;
    run.settings.status_interval <= now.since(at)
}

// Whether no status was sent yet, or the position rose above the one last sent.
pub(crate) fn is_above(run: Run) -> bool
    ensures { result ≡ is_above run }
{
    if run.status.sent {
        let sent = run.status.position;
        let applied = position(run);
        return sent.is_below(applied);
    }
    true
}

// Whether a turn sends a status.
pub(crate) fn status_due(run: Run) -> bool
    ensures { result ≡ status_due run }
{
    if run.status.sent {
        return interval_passed(run);
    }
    true
}

fn takes_pending(run: Run) -> bool
    ensures { result ≡ takes_pending run }
{
    if run.progress.timed {
        return is_above(run);
    }
    false
}

// How long the report has waited whose moment is pending.
fn waited_by(run: Run) -> Option<u64>
    ensures { maybe result ≡ waited_by run }
{
    if takes_pending(run) {
        let since = run.progress.pending_since;
        if since.0 == 0 {
            return None;
        }
        let now = run.clock.last;
        return Some(now.since(since));
    }
    None
}

// The cell after a status.
fn reported(run: Run) -> ProgressCell
    ensures { result ≡ pick (takes_pending run) (reported_of (cell_in run) (cell_position (cell_in run)) run.clock.last).cell (cell_in run) }
{
    let cell = cell_in(run);
    if takes_pending(run) {
        let applied = cell.applied;
        let reported = cell.take_pending(applied, run.clock.last);
        return reported.cell;
    }
    cell
}

fn with_last_status(mut run: Run) -> Run
    ensures { result ≡ with_last_status (last_status true (cell_position (cell_in run)) run.clock.last) run }
{
    let applied = position(run);
    let at = run.clock.last;
    let status = LastStatus {
        sent: true,
        position: applied,
        at,
    };
    run.status = status;
    run
}

// The run after a status.
fn confirmed(run: Run) -> Run
    ensures { result ≡ confirmed run }
{
    let metrics = run.metrics;
    let applied = position(run);
    let counted = metrics.record_feedback_sent(applied);
    let cell = reported(run);
    with_metrics(counted, with_cell(cell, with_last_status(run)))
}

// A status with a reply byte is written, and the run enters the state `to`. It confirms the smallest of the four files.
pub(crate) fn send_feedback(
    reply: bool,
    to: State,
    run: Run,
    input: Input,
    out: &mut [u8],
) -> Stepped
    requires { 39 ≤ length out.old }
    ensures { (u p : List ℕ) → outcome_by result p out.new ≡ feedback_of reply to run input (lent u p out.old) }
{
    let applied = position(run);
    // It fits, since the output has at least 39 bytes.
    let _ = frontend::write_status_update(applied, input.client_time, reply, out);
    let next = with_state(to, confirmed(run));
    let waited = waited_by(run);
    Stepped {
        run: next,
        verdict: Ok(()),
        taken: 0,
        event: Event::Nothing,
        written: 39,
        waited,
    }
}
