// Single changes of a run.
ghost use Rattle.std.specs.Prelude.{◌≡◌};
ghost use Rattle.worker.specs.Run.{cell_in, whole_of, offer, with_state, with_reader, with_progress, with_cell, with_drained, with_pending, with_whole, with_offer, with_metrics, with_server, accepted, wait_begun, stall_begun};

use crate::{Event, Offer, Run, State};
use framing::MessageReader;
use lsn::Lsn;
use metrics::Metrics;
use moment::Moment;
use progress::ProgressCell;
use progress::files::Progress;

pub(crate) fn with_state(state: State, mut run: Run) -> Run
    ensures { result ≡ with_state state run }
{
    run.state = state;
    run
}

pub(crate) fn with_offer(offer: Offer, mut run: Run) -> Run
    ensures { result ≡ with_offer offer run }
{
    run.offer = offer;
    run
}

pub(crate) fn with_reader(reader: MessageReader, mut run: Run) -> Run
    ensures { result ≡ with_reader reader run }
{
    run.reader = reader;
    run
}

pub(crate) fn with_progress(progress: Progress, mut run: Run) -> Run
    ensures { result ≡ with_progress progress run }
{
    run.progress = progress;
    run
}

// The cell that a step sees.
pub(crate) fn cell_in(run: Run) -> ProgressCell
    ensures { result ≡ cell_in run }
{
    let progress = run.progress;
    progress.cell()
}

// The signal, pending moment and timing of a cell; the files stay.
pub(crate) fn with_cell(cell: ProgressCell, run: Run) -> Run
    ensures { result ≡ with_cell cell run }
{
    let before = run.progress;
    let after = before.with_cell(cell);
    with_progress(after, run)
}

pub(crate) fn with_metrics(metrics: Metrics, mut run: Run) -> Run
    ensures { result ≡ with_metrics metrics run }
{
    run.metrics = metrics;
    run
}

pub(crate) fn with_server(server: Lsn, mut run: Run) -> Run
    ensures { result ≡ with_server server run }
{
    run.server = server;
    run
}

pub(crate) fn with_drained(drained: u64, mut run: Run) -> Run
    ensures { result ≡ with_drained drained run }
{
    run.drained = drained;
    run
}

pub(crate) fn with_pending(pending: bool, mut run: Run) -> Run
    ensures { result ≡ with_pending pending run }
{
    run.pending = pending;
    run
}

pub(crate) fn with_whole(tag: u8, len: usize, in_wait: bool, mut run: Run) -> Run
    ensures { result ≡ with_whole (whole_of tag len in_wait) run }
{
    run.whole.tag = tag;
    run.whole.len = len;
    run.whole.in_wait = in_wait;
    run
}

// A step was accepted at a moment.
pub(crate) fn accepted(moment: Moment, mut run: Run) -> Run
    ensures { result ≡ accepted moment run }
{
    run.clock.last = moment;
    run
}

pub(crate) fn wait_begun(mut run: Run) -> Run
    ensures { result ≡ wait_begun run }
{
    run.clock.wait_began = run.clock.last;
    run
}

pub(crate) fn stall_begun(mut run: Run) -> Run
    ensures { result ≡ stall_begun run }
{
    run.clock.stall_began = run.clock.last;
    run
}

pub(crate) fn offer(event: Event, stalled: bool, stops: bool, reached: Lsn) -> Offer
    ensures { result ≡ offer event stalled stops reached }
{
    Offer {
        event,
        stalled,
        stops,
        reached,
    }
}
