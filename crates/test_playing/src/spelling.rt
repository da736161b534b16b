// How programs spell what a run answers. Each writer answers the place after what it wrote.
ghost use Rattle.std.specs.Prelude.{◌≡◌};
ghost use Rattle.test_lines.specs.Line.{pieces};
ghost use Rattle.worker.specs.Answer.{verdict_number};
ghost use Rattle.test_playing.specs.Spelling.{stopped_texts, length_texts, part_by, lossy_length, prefix_by, data_texts, event_texts};

use error::Refusal;
use lsn::Lsn;
use worker::Event;

// The refusal's number, 0 for none: SCOPE 7.1; 01, "Where each call turns back".
pub fn number(verdict: Result<(), Refusal>) -> u8
    ensures { result ≡ verdict_number verdict }
{
    match verdict {
        Ok(()) => 0,
        Err(r) => r.number(),
    }
}

// A length that stands for a part of the payload.
fn by_length(line: &mut [u8], at: usize, payload: &[u8], from: usize, len: usize, n: u64) -> usize
    ensures { (result, line.new) ≡ pieces line.old at (length_texts payload.now from len n) }
{
    if test_lines::within(payload, from, len) {
        return test_lines::number(line, at, n);
    }
    test_lines::outside(line, at)
}

// A part of the payload: its length, or its bytes.
fn part(line: &mut [u8], at: usize, payload: &[u8], from: usize, len: usize, brief: bool) -> usize
    ensures { (result, line.new) ≡ pieces line.old at (part_by brief payload.now from len) }
{
    if brief {
        return by_length(line, at, payload, from, len, len as u64);
    }
    test_lines::part(line, at, payload, from, len)
}

// The length of a part's lossy text.
fn lossy_len(payload: &[u8], from: usize, len: usize) -> u64
    ensures { result ≡ lossy_length payload.now from len }
{
    if !test_lines::within(payload, from, len) {
        return 0;
    }
    lossy::count(&payload[from..from + len], usize::MAX).unwrap_or(0) as u64
}

// A prefix: the length of its text, or its bytes.
fn prefix(line: &mut [u8], at: usize, payload: &[u8], from: usize, len: usize, brief: bool) -> usize
    ensures { (result, line.new) ≡ pieces line.old at (prefix_by brief payload.now from len) }
{
    if brief {
        return by_length(line, at, payload, from, len, lossy_len(payload, from, len));
    }
    test_lines::part(line, at, payload, from, len)
}

fn stopped(line: &mut [u8], at: usize, reached: Lsn) -> usize
    ensures { (result, line.new) ≡ pieces line.old at (stopped_texts reached) }
{
    let a = wire::store::place(line, at, b"S");
    test_lines::position(line, a, reached)
}

// An event that names parts.
fn data_event(line: &mut [u8], at: usize, payload: &[u8], e: Event, brief: bool) -> usize
    ensures { (result, line.new) ≡ pieces line.old at (data_texts brief payload.now e) }
{
    match e {
        Event::Message {
            transactional,
            lsn,
            prefix_from,
            prefix_len,
            content_from,
            content_len,
        } => {
            let a = test_lines::flagged(line, at, transactional, lsn);
            let b = prefix(line, a, payload, prefix_from, prefix_len, brief);
            part(line, b, payload, content_from, content_len, brief)
        }
        Event::XLogData {
            wal_start,
            wal_end,
            server_time,
            from,
            len,
        } => {
            let a = test_lines::spanned(line, at, b'X', wal_start, wal_end, server_time);
            part(line, a, payload, from, len, brief)
        }
        Event::Nothing => at,
        Event::KeepAlive { .. } => at,
        Event::Begin { .. } => at,
        Event::Commit { .. } => at,
        Event::StoppedAt { .. } => at,
    }
}

// An event's letter and fields; brief: parts by their lengths. Nothing for no event.
pub fn event(line: &mut [u8], at: usize, payload: &[u8], e: Event, brief: bool) -> usize
    ensures { (result, line.new) ≡ pieces line.old at (event_texts brief payload.now e) }
{
    match e {
        Event::Nothing => at,
        Event::KeepAlive {
            wal_end,
            server_time,
            reply_requested,
        } => {
            let a = test_lines::dated(line, at, b'K', wal_end, server_time);
            test_lines::flag(line, a, reply_requested)
        }
        Event::Begin {
            final_lsn,
            commit_time,
            xid,
        } => {
            let a = test_lines::dated(line, at, b'B', final_lsn, commit_time);
            test_lines::number(line, a, xid as u64)
        }
        Event::Commit {
            lsn,
            end_lsn,
            commit_time,
        } => test_lines::spanned(line, at, b'C', lsn, end_lsn, commit_time),
        Event::Message { .. } => data_event(line, at, payload, e, brief),
        Event::XLogData { .. } => data_event(line, at, payload, e, brief),
        Event::StoppedAt { reached } => stopped(line, at, reached),
    }
}
