// Handling: the run offers the event that a whole message gives.
ghost use Rattle.std.specs.Prelude.{◌≡◌, ℕ, ◌≤◌, List, length, take, Ok};
ghost use Rattle.pgoutput.specs.Boundary.{boundary_of};
ghost use Rattle.pgoutput.specs.Boundary as B;
ghost use Rattle.replication.specs.CopyData.{copy_data_of, said_by};
ghost use Rattle.wire.specs.Bytes.{at};
ghost use Rattle.metrics.specs.Metrics.{with_end, with_reply};
ghost use Rattle.worker.specs.Answer.{lent, outcome_by};
ghost use Rattle.worker.specs.Events.{given, given_by, data_gives};
ghost use Rattle.worker.specs.Run.{with_metrics};
ghost use Rattle.worker.specs.Step.{keep_alive_by, boundary_by, copy_data_by, handling_of};
ghost use Rattle.worker.specs.Streaming.{is_copy_done};
ghost use Rattle.worker.specs.declared.Event.{Event};

use crate::changes::with_metrics;
use crate::deliver::{back, offers, offers_at};
use crate::ends::{done, ended, moved};
use crate::status::send_feedback;
use crate::{DataEvent, Event, Input, Run, State, Stepped};
use error::Refusal;
use framing::tag::{is_copy_data, is_error};
use lsn::Lsn;
use pgoutput::Boundary;
use replication::CopyData;

fn with_wal_end(wal_end: Lsn, run: Run) -> Run
    ensures { result ≡ with_metrics (with_end run.metrics wal_end) run }
{
    let metrics = run.metrics;
    let told = metrics.set_last_wal_end(wal_end);
    with_metrics(told, run)
}

fn with_reply(run: Run) -> Run
    ensures { result ≡ with_metrics (with_reply run.metrics) run }
{
    let metrics = run.metrics;
    let replied = metrics.record_keepalive_reply();
    with_metrics(replied, run)
}

// A keepalive never stops.
fn keep_alive(
    wal_end: Lsn,
    server_time: i64,
    reply: bool,
    run: Run,
    input: Input,
    out: &mut [u8],
) -> Stepped
    requires { 39 ≤ length out.old }
    ensures { (u p : List ℕ) → outcome_by result p out.new
        ≡ keep_alive_by wal_end.0 server_time reply run input (lent u p out.old) }
{
    let event = Event::KeepAlive {
        wal_end,
        server_time,
        reply_requested: reply,
    };
    let offered = offers(event, false, Lsn(0), run);
    if reply {
        return send_feedback(true, State::Offering, with_reply(offered), input, out);
    }
    moved(offered)
}

// The boundary in the first `len` of these bytes, or in all of them where there are fewer.
fn boundary_in(rest: &[u8], len: usize) -> Result<Option<Boundary>, Refusal>
    ensures { B.said_by result ≡ boundary_of (take len rest.now) }
{
    let n = len.min(rest.len());
    pgoutput::parse_pgoutput_boundary(&rest[..n])
}

// The boundary in the data that begin at a place of the payload.
fn boundary_at(payload: &[u8], from: usize, len: usize) -> Result<Option<Boundary>, Refusal>
    ensures { B.said_by result ≡ boundary_of (at payload.now from len) }
{
    if payload.len() < from {
        return Ok(None);
    }
    boundary_in(&payload[from..], len)
}

fn begin(final_lsn: Lsn, commit_time: i64, xid: u32) -> DataEvent
    ensures { given_by (Ok result) ≡ given (Event.Begin final_lsn commit_time xid) final_lsn }
{
    let event = Event::Begin {
        final_lsn,
        commit_time,
        xid,
    };
    DataEvent {
        event,
        reached: final_lsn,
    }
}

fn commit(lsn: Lsn, end_lsn: Lsn, commit_time: i64) -> DataEvent
    ensures { given_by (Ok result) ≡ given (Event.Commit lsn end_lsn commit_time) end_lsn }
{
    let event = Event::Commit {
        lsn,
        end_lsn,
        commit_time,
    };
    DataEvent {
        event,
        reached: end_lsn,
    }
}

fn message(
    transactional: bool,
    lsn: Lsn,
    prefix: usize,
    prefix_len: usize,
    content: usize,
    content_len: usize,
    end: Lsn,
) -> DataEvent
    ensures { given_by (Ok result) ≡ given (Event.Message transactional lsn prefix prefix_len content content_len) end }
{
    let event = Event::Message {
        transactional,
        lsn,
        prefix_from: prefix,
        prefix_len,
        content_from: content,
        content_len,
    };
    DataEvent {
        event,
        reached: end,
    }
}

fn other(start: Lsn, end: Lsn, server_time: i64, from: usize, len: usize) -> DataEvent
    ensures { given_by (Ok result) ≡ given (Event.XLogData start end server_time from len) end }
{
    let event = Event::XLogData {
        wal_start: start,
        wal_end: end,
        server_time,
        from,
        len,
    };
    DataEvent {
        event,
        reached: end,
    }
}

// The event of an XLogData whose data begin at a place of the payload, with the position that it reaches; or why the data are refused.
// It has a case for each boundary and nothing else; the layout gives each field of a case a line of its own, which is why it is long.
pub fn event_at(
    payload: &[u8],
    from: usize,
    len: usize,
    start: Lsn,
    end: Lsn,
    server_time: i64,
) -> Result<DataEvent, Refusal>
    ensures { given_by result ≡ data_gives (boundary_of (at payload.now from len)) start.0 end.0 server_time from len }
{
    let Some(boundary) = boundary_at(payload, from, len)? else {
        return Ok(other(start, end, server_time, from, len));
    };
    match boundary {
        Boundary::Begin {
            final_lsn,
            commit_time,
            xid,
        } => Ok(begin(final_lsn, commit_time, xid)),
        Boundary::Commit {
            lsn,
            end_lsn,
            commit_time,
        } => Ok(commit(lsn, end_lsn, commit_time)),
        Boundary::Message {
            transactional,
            lsn,
            prefix_from,
            prefix_len,
            content_from,
            content_len,
        } => {
            let prefix = from + prefix_from;
            let content = from + content_from;
            Ok(message(
                transactional,
                lsn,
                prefix,
                prefix_len,
                content,
                content_len,
                end,
            ))
        }
    }
}

fn xlog_data(
    start: Lsn,
    end: Lsn,
    server_time: i64,
    from: usize,
    len: usize,
    run: Run,
    payload: &[u8],
) -> Stepped
    ensures { (u o : List ℕ) → outcome_by result payload.now o
        ≡ boundary_by (boundary_of (at payload.now from len)) start.0 end.0 server_time from len run
        (lent u payload.now o) }
{
    match event_at(payload, from, len, start, end, server_time) {
        Ok(data) => offers_at(data.event, data.reached, run),
        Err(refusal) => ended(refusal, run),
    }
}

// What the first `len` bytes of the payload say, or all of them where there are fewer.
fn copy_data_in(payload: &[u8], len: usize) -> Result<CopyData, Refusal>
    ensures { said_by result ≡ copy_data_of (take len payload.now) }
{
    let n = len.min(payload.len());
    replication::parse_copy_data(&payload[..n])
}

fn copy_data(
    said: Result<CopyData, Refusal>,
    run: Run,
    input: Input,
    payload: &[u8],
    out: &mut [u8],
) -> Stepped
    requires { 39 ≤ length out.old }
    ensures { (u : List ℕ) → outcome_by result payload.now out.new
        ≡ copy_data_by (said_by said) run input (lent u payload.now out.old) }
{
    match said {
        Ok(
            CopyData::KeepAlive {
                wal_end,
                server_time,
                reply,
            },
        ) => {
            let next = with_wal_end(wal_end, run);
            keep_alive(wal_end, server_time, reply, next, input, out)
        }
        Ok(
            CopyData::XLogData {
                wal_start,
                wal_end,
                server_time,
                from,
                len,
            },
        ) => {
            let next = with_wal_end(wal_end, run);
            xlog_data(wal_start, wal_end, server_time, from, len, next, payload)
        }
        Err(refusal) => ended(refusal, run),
    }
}

// The server's CopyDone; no other message has its tag.
fn is_copy_done(tag: u8) -> bool
    ensures { result ≡ is_copy_done tag }
{
    tag == b'c'
}

// No byte is taken; the server's CopyDone is answered in kind, and the run ends.
pub(crate) fn handling(run: Run, input: Input, payload: &[u8], out: &mut [u8]) -> Stepped
    requires { 39 ≤ length out.old }
    ensures { (u : List ℕ) → outcome_by result payload.now out.new
        ≡ handling_of run input (lent u payload.now out.old) }
{
    let tag = run.whole.tag;
    if is_error(tag) {
        return ended(Refusal::ServerError, run);
    }
    if is_copy_done(tag) {
        return done(Event::Nothing, run, out);
    }
    if is_copy_data(tag) {
        let said = copy_data_in(payload, run.whole.len);
        return copy_data(said, run, input, payload, out);
    }
    moved(back(run))
}
