// A message that lies whole at the front of the unread bytes: what four steps make of it, found before any byte is taken.
ghost use Rattle.std.specs.Prelude.{◌≡◌, ℕ, ◌+◌, ◌-◌, ◌≤◌, List, [], length, drop, ◌==◌};
ghost use Rattle.wire.specs.Answer.{maybe, value_of};
ghost use Rattle.framing.specs.WholeFront.{there};
ghost use Rattle.replication.specs.CopyData.{xlog_of};
ghost use Rattle.worker.specs.Answer.{lent, outcome_by};
ghost use Rattle.worker.specs.Events.{given_by};
ghost use Rattle.worker.specs.Step.{having, handing};
ghost use Rattle.worker.specs.Tests.{unless};
ghost use Rattle.advance.specs.AtHand.{hand_by, HasLength, Holds, within, whole_at, by_given, by_copy_data, copy_data_at_hand, at_hand_of, is_drain, is_free, is_between, has_room_for, applies_of, handed_run};

use error::Refusal;
use framing::MessageReader;
use lsn::Lsn;
use moment::Moment;
use wire::field::FIRST_NEGATIVE_32;
use worker::handle::event_at;
use worker::session::reaches;
use worker::{DataEvent, Event, Offer, Queue, Run, State, Stepped, Whole};

// A length from here on stands for a negative number.
const FIRST_NEGATIVE: usize = FIRST_NEGATIVE_32 as usize;

// A message at hand: its payload's length; the server's end; the position that it reaches; its event.
#[derive(Clone, Copy)]
pub struct AtHand {
    pub len: usize,
    pub wal_end: Lsn,
    pub reached: Lsn,
    pub event: Event,
}

// The payload's length of a CopyData message that is whole, and long enough for an XLogData.
fn whole_at(unread: &[u8]) -> Option<usize>
    ensures { (maybe result ≡ there (whole_at unread.now)) × (value_of result ≤ length unread.now - 5) }
{
    if unread.len() < 30 {
        return None;
    }
    let tag = unread[0];
    if framing::tag::is_copy_data(tag) {
        let n = wire::field::read_u32(unread, 1)?;
        return within(n as usize, unread.len());
    }
    None
}

// By a message's length field, and how many bytes there are.
fn within(n: usize, unread: usize) -> Option<usize>
    ensures { (maybe result ≡ there (within n unread)) × (value_of result ≤ unread - 5) }
{
    if n < 29 {
        return None;
    }
    if FIRST_NEGATIVE <= n {
        return None;
    }
    if unread < n + 1 {
        return None;
    }
    Some(n - 4)
}

// By what the data give, with the payload's length and the server's end.
fn by_event(len: usize, end: Lsn, given: Result<DataEvent, Refusal>) -> Option<AtHand>
    ensures { (hand_by result ≡ by_given len end (given_by given)) × HasLength result len }
{
    match given {
        Ok(data) => Some(AtHand {
            len,
            wal_end: end,
            reached: data.reached,
            event: data.event,
        }),
        Err(_) => None,
    }
}

// An XLogData. Its fields are read here: through the answer of `replication` they would go through memory.
fn xlog_data(payload: &[u8]) -> Option<AtHand>
    ensures { (hand_by result ≡ by_copy_data payload.now (xlog_of (drop 1 payload.now))) × HasLength result (length payload.now) }
{
    let start = wire::field::read_u64(payload, 1)?;
    let end = wire::field::read_u64(payload, 9)?;
    let server_time = wire::field::read_i64(payload, 17)?;
    let n = payload.len();
    let given = event_at(payload, 25, n - 25, Lsn(start), Lsn(end), server_time);
    by_event(n, Lsn(end), given)
}

// Of the payload of a CopyData message.
fn message(payload: &[u8]) -> Option<AtHand>
    ensures { (hand_by result ≡ copy_data_at_hand payload.now) × HasLength result (length payload.now) }
{
    if payload.len() == 0 {
        return None;
    }
    if payload[0] == b'w' {
        return xlog_data(payload);
    }
    None
}

pub(crate) fn at_hand(unread: &[u8]) -> Option<AtHand>
    ensures { (hand_by result ≡ at_hand_of unread.now) × Holds result (length unread.now - 5) }
{
    let n = whole_at(unread)?;
    message(&unread[5..5 + n])
}

fn is_drain(state: State) -> bool
    ensures { result ≡ is_drain state }
{
    matches!(state, State::Drain)
}

fn is_free(queue: Queue) -> bool
    ensures { result ≡ is_free queue }
{
    matches!(queue, Queue::Free)
}

// Whether the run is between two messages of a drain.
fn is_between(run: Run) -> bool
    ensures { result ≡ is_between run }
{
    let state = run.state;
    if is_drain(state) {
        let reader = run.reader;
        if reader.filled == 0 {
            if reader.refused {
                return false;
            }
            return run.drained < 256;
        }
        return false;
    }
    false
}

// Whether a step is accepted, and the payload has room.
fn has_room(run: Run, moment: Moment, payload_len: usize, out_len: usize, len: usize) -> bool
    ensures { result ≡ has_room_for run moment payload_len out_len len }
{
    let limit = framing::limit_of(run.settings.max_message_size);
    if payload_len < limit {
        return false;
    }
    if limit < len {
        return false;
    }
    if out_len < 39 {
        return false;
    }
    if moment.is_in_range() {
        return !moment.is_before(run.clock.last);
    }
    false
}

// Whether four steps hand the message on, where it has a payload.
pub(crate) fn applies(
    run: Run,
    moment: Moment,
    queue: Queue,
    payload_len: usize,
    out_len: usize,
    message: AtHand,
) -> bool
    ensures { unless (message.len == 0) result ≡ applies_of run moment queue payload_len out_len message }
{
    let len = message.len;
    let reached = message.reached;
    if is_free(queue) {
        if is_between(run) {
            if has_room(run, moment, payload_len, out_len, len) {
                return !reaches(run, reached);
            }
            return false;
        }
        return false;
    }
    false
}

// The run after the four steps.
fn handed(run: Run, moment: Moment, message: AtHand) -> Run
    ensures { result ≡ handed_run run moment message }
{
    let settings = run.settings;
    let progress = run.progress;
    let status = run.status;
    let mut clock = run.clock;
    clock.last = moment;
    let wal_end = message.wal_end;
    let reached = message.reached;
    let event = message.event;
    let metrics = run.metrics;
    let told = metrics.set_last_wal_end(wal_end);
    let counted = told.record_event_forwarded();
    let offer = Offer {
        event,
        stalled: false,
        stops: false,
        reached,
    };
    let whole = Whole {
        tag: b'd',
        len: message.len,
        in_wait: false,
    };
    Run {
        settings,
        state: State::Drain,
        reader: MessageReader::new(),
        clock,
        progress,
        status,
        drained: std::num::wrapping_add_u64(run.drained, 1),
        pending: run.pending,
        whole,
        offer,
        metrics: counted,
        server: wal_end,
    }
}

// The message is taken, and its event handed on.
pub(crate) fn hands_on(run: Run, moment: Moment, message: AtHand, taken: usize) -> Stepped
    ensures { (p o : List ℕ) → outcome_by result p o ≡ having taken p (handing message.event (handed_run run moment message) (lent [] p o)) }
{
    let event = message.event;
    Stepped {
        run: handed(run, moment, message),
        verdict: Ok(()),
        taken,
        event,
        written: 0,
        waited: None,
    }
}
