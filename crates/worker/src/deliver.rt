// Offering: an event is handed on, dropped, or stalls; and where the run goes when none is left.
ghost use Rattle.std.specs.Prelude.{◌≡◌, ℕ, ◌≤◌, List, length};
ghost use Rattle.worker.specs.Answer.{lent, outcome_by};
ghost use Rattle.worker.specs.Step.{Lent, back, offers, offers_at, is_stopped_at, after_event, next_event, hands_on, stall_ended, stalls, stalled_by, stalled_of, offering_of};
ghost use Rattle.worker.specs.declared.Queue.{Queue};

use crate::changes::{offer, stall_begun, with_metrics, with_offer, with_server, with_state};
use crate::ends::{done, handing, moved};
use crate::session::reaches;
use crate::status::{interval_passed, send_feedback};
use crate::{Event, Input, Queue, Run, State, Stepped};
use lsn::Lsn;

// After a message the run drains on, or begins a new round where the message was read in a wait.
pub(crate) fn back(run: Run) -> Run
    ensures { result ≡ back run }
{
    if run.whole.in_wait {
        return with_state(State::Turn, run);
    }
    with_state(State::Drain, run)
}

// An event is offered; `stops` says whether StoppedAt follows it.
pub(crate) fn offers(event: Event, stops: bool, reached: Lsn, run: Run) -> Run
    ensures { result ≡ offers event stops reached run }
{
    let metrics = run.metrics;
    let told = metrics.last_wal_end;
    let first = offer(event, false, stops, reached);
    with_state(State::Offering, with_server(told, with_offer(first, run)))
}

// An event that reaches a position.
pub(crate) fn offers_at(event: Event, position: Lsn, run: Run) -> Stepped
    ensures { (l : Lent) → outcome_by result l.payload l.out ≡ offers_at event position run l }
{
    moved(offers(event, reaches(run, position), position, run))
}

fn is_stopped_at(event: Event) -> bool
    ensures { result ≡ is_stopped_at event }
{
    matches!(event, Event::StoppedAt { .. })
}

// After an event that reached the stop position StoppedAt is offered; after any other the run goes back.
fn after_event(run: Run) -> Run
    ensures { result ≡ after_event run }
{
    if run.offer.stops {
        let reached = run.offer.reached;
        return offers(Event::StoppedAt { reached }, false, Lsn(0), run);
    }
    back(run)
}

// An event is handed on, or Nothing where it is dropped; with StoppedAt the run ends.
fn next(event: Event, run: Run, out: &mut [u8]) -> Stepped
    requires { 39 ≤ length out.old }
    ensures { (u p : List ℕ) → outcome_by result p out.new ≡ next_event event run (lent u p out.old) }
{
    let offer = run.offer;
    let offered = offer.event;
    if is_stopped_at(offered) {
        return done(event, run, out);
    }
    handing(event, after_event(run))
}

fn hands_on(run: Run, out: &mut [u8]) -> Stepped
    requires { 39 ≤ length out.old }
    ensures { (u p : List ℕ) → outcome_by result p out.new ≡ hands_on run (lent u p out.old) }
{
    let offer = run.offer;
    let event = offer.event;
    let metrics = run.metrics;
    let counted = metrics.record_event_forwarded();
    next(event, with_metrics(counted, run), out)
}

fn stall_ended(run: Run) -> Run
    ensures { result ≡ stall_ended run }
{
    let now = run.clock.last;
    let began = run.clock.stall_began;
    let nanos = now.since(began);
    let metrics = run.metrics;
    let counted = metrics.record_stall_end(nanos / 1000);
    with_metrics(counted, run)
}

fn stalls(run: Run) -> Run
    ensures { result ≡ stalls run }
{
    let old = run.offer;
    let event = old.event;
    let reached = old.reached;
    let kept = offer(event, true, old.stops, reached);
    let metrics = run.metrics;
    let counted = metrics.record_stall_begin();
    with_metrics(counted, stall_begun(with_offer(kept, run)))
}

// The queue is full: only the status interval can make the run write.
fn stays(run: Run, input: Input, out: &mut [u8]) -> Stepped
    requires { 39 ≤ length out.old }
    ensures { (u p : List ℕ) → outcome_by result p out.new ≡ stalled_by Queue.Full run input (lent u p out.old) }
{
    if interval_passed(run) {
        return send_feedback(false, State::Offering, run, input, out);
    }
    moved(run)
}

// A later try, or the first one after it has begun a stall: stop comes before the queue.
fn stalled(run: Run, input: Input, out: &mut [u8]) -> Stepped
    requires { 39 ≤ length out.old }
    ensures { (u p : List ℕ) → outcome_by result p out.new ≡ stalled_of run input (lent u p out.old) }
{
    if input.stop {
        return done(Event::Nothing, run, out);
    }
    let queue = input.queue;
    match queue {
        Queue::Free => hands_on(stall_ended(run), out),
        Queue::Closed => next(Event::Nothing, stall_ended(run), out),
        Queue::Full => stays(run, input, out),
    }
}

// Stop is not looked at on a first try that the queue takes or drops.
pub(crate) fn offering(run: Run, input: Input, out: &mut [u8]) -> Stepped
    requires { 39 ≤ length out.old }
    ensures { (u p : List ℕ) → outcome_by result p out.new ≡ offering_of run input (lent u p out.old) }
{
    if run.offer.stalled {
        return stalled(run, input, out);
    }
    let queue = input.queue;
    match queue {
        Queue::Free => hands_on(run, out),
        Queue::Closed => next(Event::Nothing, run, out),
        Queue::Full => stalled(stalls(run), input, out),
    }
}
