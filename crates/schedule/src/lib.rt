#![tactic(auto)]
// When to call a step again, for an event loop.
ghost use Rattle.std.specs.Prelude.{◌≡◌};
ghost use Rattle.schedule.specs.NextStep.{next_by, due_of, by_clock, is_whole, opening_next, reading_next, waiting_next, offering_next, next_step_of};

use framing::MessageReader;
use moment::Moment;
use worker::{Queue, Run, State};

// The number after the last moment: no step is accepted at it.
const BEYOND: u64 = moment::LAST + 1;

// When a step moves next while nothing new comes: no byte, no end of the input, no stop, no change of the queue, no report.
// From: no step moves before this moment, and every step from it on does; it may lie at or before the last accepted moment.
// OnInput: no step moves until something comes. Never: the run has ended.
#[derive(Clone, Copy)]
pub enum NextStep {
    AtOnce,
    From(Moment),
    OnInput,
    Never,
}

// The first moment at which the interval has passed. The sum does not wrap: it is made only where it is at most the last moment.
fn due(interval: u64, at: Moment) -> u64
    ensures { result ≡ due_of interval at }
{
    if interval == 0 {
        return 0;
    }
    if BEYOND <= at.0 {
        return BEYOND;
    }
    if BEYOND - at.0 <= interval {
        return BEYOND;
    }
    at.0 + interval
}

fn by_clock(due: u64) -> NextStep
    ensures { next_by result ≡ by_clock due }
{
    if due == 0 {
        return NextStep::AtOnce;
    }
    if due < BEYOND {
        return NextStep::From(Moment(due));
    }
    NextStep::OnInput
}

// Whether the reader's message lacks no byte; no call leaves such a reader.
fn is_whole(reader: MessageReader, payload_len: usize) -> bool
    ensures { result ≡ is_whole reader payload_len }
{
    let filled = reader.filled;
    if filled < 5 {
        return false;
    }
    reader.payload_len.min(payload_len) <= filled - 5
}

fn opening(reader: MessageReader, payload_len: usize) -> NextStep
    ensures { next_by result ≡ opening_next reader payload_len }
{
    if reader.refused {
        return NextStep::AtOnce;
    }
    if is_whole(reader, payload_len) {
        let tag = reader.tag();
        if framing::tag::is_copy_both_response(tag) {
            return NextStep::AtOnce;
        }
        if framing::tag::is_error(tag) {
            return NextStep::AtOnce;
        }
        return NextStep::OnInput;
    }
    NextStep::OnInput
}

fn reading(reader: MessageReader, payload_len: usize) -> NextStep
    ensures { next_by result ≡ reading_next reader payload_len }
{
    if reader.refused {
        return NextStep::AtOnce;
    }
    if is_whole(reader, payload_len) {
        return NextStep::AtOnce;
    }
    NextStep::OnInput
}

fn waiting(run: Run) -> NextStep
    ensures { next_by result ≡ waiting_next run }
{
    let idle = due(run.settings.idle_wakeup_interval, run.clock.wait_began);
    if run.pending {
        let status = due(run.settings.status_interval, run.status.at);
        return by_clock(status.min(idle));
    }
    if run.progress.signalled {
        return NextStep::AtOnce;
    }
    by_clock(idle)
}

fn offering(run: Run, queue: Queue) -> NextStep
    ensures { next_by result ≡ offering_next run queue }
{
    match queue {
        Queue::Free => NextStep::AtOnce,
        Queue::Closed => NextStep::AtOnce,
        Queue::Full => by_clock(due(run.settings.status_interval, run.status.at)),
    }
}

// The answer is promised of a step that is lent no unread byte, with the input not ended, no stop seen, a payload buffer of this length and
// the queue as it is now. A host that has unread bytes, or sees the input's end or a stop, makes a step at once instead.
pub fn next_step(run: Run, payload_len: usize, queue: Queue) -> NextStep
    ensures { next_by result ≡ next_step_of run payload_len queue }
{
    let state = run.state;
    match state {
        State::Opening => opening(run.reader, payload_len),
        State::Turn => NextStep::AtOnce,
        State::Drain => NextStep::AtOnce,
        State::Reading => reading(run.reader, payload_len),
        State::Waiting => waiting(run),
        State::Handling => NextStep::AtOnce,
        State::Offering => offering(run, queue),
        State::Ended => NextStep::Never,
    }
}
