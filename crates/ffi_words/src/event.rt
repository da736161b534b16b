// An event as its kind and six numbers. SCOPE 9.2, 5.6.
// Kinds, refusals and flags are numbers here: the C interface.
ghost use Rattle.std.specs.Prelude.{◌≡◌, min};
ghost use Rattle.worker.specs.Events.{said_by, message, xlog_data};
ghost use Rattle.ffi_words.specs.Step.{length_in, clipped};
ghost use Rattle.ffi_words.specs.Words.{event_of, event_with_parts, event_words, EventFits};

use crate::layout;
use crate::word::{flag_of, low_half};
use lsn::Lsn;
use wire::field::{of_i64, to_i64};
use wire::word::flag;
use worker::Event;

// Kinds 1 to 3; the others are those of `parts_of`.
pub(crate) fn event_of(kind: u64, a: u64, b: u64, c: u64, d: u64, e: u64, f: u64) -> Event
    ensures { result ≡ event_of kind a b c d e f }
{
    if kind == layout::EVENT_KEEP_ALIVE {
        let server_time = to_i64(b);
        let reply_requested = flag_of(c);
        return Event::KeepAlive {
            wal_end: Lsn(a),
            server_time,
            reply_requested,
        };
    }
    if kind == layout::EVENT_BEGIN {
        let commit_time = to_i64(b);
        let xid = low_half(c);
        return Event::Begin {
            final_lsn: Lsn(a),
            commit_time,
            xid,
        };
    }
    if kind == layout::EVENT_COMMIT {
        let commit_time = to_i64(c);
        return Event::Commit {
            lsn: Lsn(a),
            end_lsn: Lsn(b),
            commit_time,
        };
    }
    parts_of(kind, a, b, c, d, e, f)
}

// Every other kind is Nothing.
fn parts_of(kind: u64, a: u64, b: u64, c: u64, d: u64, e: u64, f: u64) -> Event
    ensures { result ≡ event_with_parts kind a b c d e f }
{
    if kind == layout::EVENT_MESSAGE {
        let transactional = flag_of(a);
        return Event::Message {
            transactional,
            lsn: Lsn(b),
            prefix_from: c as usize,
            prefix_len: d as usize,
            content_from: e as usize,
            content_len: f as usize,
        };
    }
    if kind == layout::EVENT_XLOG_DATA {
        let server_time = to_i64(c);
        return Event::XLogData {
            wal_start: Lsn(a),
            wal_end: Lsn(b),
            server_time,
            from: d as usize,
            len: e as usize,
        };
    }
    if kind == layout::EVENT_STOPPED_AT {
        return Event::StoppedAt { reached: Lsn(a) };
    }
    Event::Nothing
}

// How long a part is, as far as a buffer of n bytes has it.
fn length_in(n: usize, from: usize, len: usize) -> usize
    ensures { result ≡ length_in n from len }
{
    let place = from.min(n);
    len.min(n - place)
}

// The event with its parts as far as a payload buffer of n bytes has them: words that no call made may name others. SCOPE 5.11.
pub(crate) fn clip(n: usize, event: Event) -> Event
    ensures { said_by result ≡ clipped n (said_by event) }
{
    match event {
        Event::Nothing => event,
        Event::KeepAlive { .. } => event,
        Event::Begin { .. } => event,
        Event::Commit { .. } => event,
        Event::Message {
            transactional,
            lsn,
            prefix_from,
            prefix_len,
            content_from,
            content_len,
        } => Event::Message {
            transactional,
            lsn,
            prefix_from: prefix_from.min(n),
            prefix_len: length_in(n, prefix_from, prefix_len),
            content_from: content_from.min(n),
            content_len: length_in(n, content_from, content_len),
        },
        Event::XLogData {
            wal_start,
            wal_end,
            server_time,
            from,
            len,
        } => Event::XLogData {
            wal_start,
            wal_end,
            server_time,
            from: from.min(n),
            len: length_in(n, from, len),
        },
        Event::StoppedAt { .. } => event,
    }
}

fn message_words(
    transactional: bool,
    lsn: Lsn,
    prefix_from: usize,
    prefix_len: usize,
    content_from: usize,
    content_len: usize,
) -> [u64; 7]
    ensures { result ≡ event_words (message transactional lsn.0 prefix_from prefix_len content_from content_len) }
{
    [
        layout::EVENT_MESSAGE,
        flag(transactional),
        lsn.0,
        prefix_from as u64,
        prefix_len as u64,
        content_from as u64,
        content_len as u64,
    ]
}

fn xlog_data_words(
    wal_start: Lsn,
    wal_end: Lsn,
    server_time: i64,
    from: usize,
    len: usize,
) -> [u64; 7]
    ensures { result ≡ event_words (xlog_data wal_start.0 wal_end.0 server_time from len) }
{
    [
        layout::EVENT_XLOG_DATA,
        wal_start.0,
        wal_end.0,
        of_i64(server_time),
        from as u64,
        len as u64,
        0,
    ]
}

pub(crate) fn event_words(event: Event) -> [u64; 7]
    ensures { (result ≡ event_words (said_by event)) × EventFits event }
{
    match event {
        Event::Nothing => [layout::EVENT_NOTHING, 0, 0, 0, 0, 0, 0],
        Event::KeepAlive {
            wal_end: a,
            server_time: b,
            reply_requested: c,
        } => [layout::EVENT_KEEP_ALIVE, a.0, of_i64(b), flag(c), 0, 0, 0],
        Event::Begin {
            final_lsn: a,
            commit_time: b,
            xid: c,
        } => [layout::EVENT_BEGIN, a.0, of_i64(b), c as u64, 0, 0, 0],
        Event::Commit {
            lsn: a,
            end_lsn: b,
            commit_time: c,
        } => [layout::EVENT_COMMIT, a.0, b.0, of_i64(c), 0, 0, 0],
        Event::Message {
            transactional: a,
            lsn: b,
            prefix_from: c,
            prefix_len: d,
            content_from: e,
            content_len: f,
        } => message_words(a, b, c, d, e, f),
        Event::XLogData {
            wal_start: a,
            wal_end: b,
            server_time: c,
            from: d,
            len: e,
        } => xlog_data_words(a, b, c, d, e),
        Event::StoppedAt { reached: a } => [layout::EVENT_STOPPED_AT, a.0, 0, 0, 0, 0, 0],
    }
}
