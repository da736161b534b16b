#![tactic(auto)]
// Functions for the benchmark to link: one read by a fresh reader, a CopyData, a boundary, a lossy text and a well-formed beginning as they are
// found and on the plain path, a lossy text by the table throughout, a generated stream, and a relation cache in both layouts.
mod caches;

ghost use Rattle.std.specs.Prelude.{◌≡◌};
ghost use Rattle.replication.specs.CopyData.{copy_data_of, said_by as copy_said};
ghost use Rattle.pgoutput.specs.Boundary.{boundary_of, said_by as boundary_said};
ghost use Rattle.lossy.specs.Marks.{lossy_outcome};
ghost use Rattle.lossy.specs.Stretch.{stretch_of};
ghost use Rattle.ffi_bench.specs.Mixed.{plus, bit, copy_mixed, boundary_mixed, read_taken, lossy_written, load_written};

use error::Refusal;
use framing::MessageReader;
use lossy::Lossy;
use pgoutput::Boundary;
use replication::CopyData;

// How many bytes the first message has, stored at the payload's front.
#[unsafe(no_mangle)]
pub extern "C" fn bench_read(limit: usize, unread: &[u8], payload: &mut [u8]) -> usize
    ensures { (result, payload.new) ≡ read_taken limit unread.now payload.old }
{
    let s = MessageReader::new().read(limit, unread, false, payload);
    s.taken
}

fn plus64(a: u64, b: u64) -> u64
    ensures { result ≡ plus a b }
{
    a.wrapping_add(b)
}

fn bit64(b: bool) -> u64
    ensures { result ≡ bit b }
{
    u64::from(b)
}

fn copy_number(c: Result<CopyData, Refusal>) -> u64
    ensures { result ≡ copy_mixed (copy_said c) }
{
    match c {
        Ok(
            CopyData::XLogData {
                wal_start,
                wal_end,
                server_time: _,
                from: _,
                len,
            },
        ) => plus64(plus64(wal_start.0, wal_end.0), len as u64),
        Ok(
            CopyData::KeepAlive {
                wal_end,
                server_time: _,
                reply,
            },
        ) => plus64(wal_end.0, bit64(reply)),
        Err(r) => r.number() as u64,
    }
}

fn boundary_number(b: Result<Option<Boundary>, Refusal>) -> u64
    ensures { result ≡ boundary_mixed (boundary_said b) }
{
    match b {
        Ok(
            Some(
                Boundary::Begin {
                    final_lsn,
                    commit_time: _,
                    xid,
                },
            ),
        ) => plus64(final_lsn.0, xid as u64),
        Ok(
            Some(
                Boundary::Commit {
                    lsn,
                    end_lsn,
                    commit_time: _,
                },
            ),
        ) => plus64(lsn.0, end_lsn.0),
        Ok(
            Some(
                Boundary::Message {
                    transactional,
                    lsn,
                    prefix_from: _,
                    prefix_len,
                    content_from: _,
                    content_len,
                },
            ),
        ) => plus64(
            plus64(lsn.0, prefix_len as u64),
            plus64(content_len as u64, bit64(transactional)),
        ),
        Ok(None) => 0,
        Err(r) => r.number() as u64,
    }
}

#[unsafe(no_mangle)]
pub extern "C" fn bench_copy_data(payload: &[u8]) -> u64
    ensures { result ≡ copy_mixed (copy_data_of payload.now) }
{
    copy_number(replication::parse_copy_data(payload))
}

#[unsafe(no_mangle)]
pub extern "C" fn bench_boundary(bytes: &[u8]) -> u64
    ensures { result ≡ boundary_mixed (boundary_of bytes.now) }
{
    boundary_number(pgoutput::parse_pgoutput_boundary(bytes))
}

fn bytes_of(w: Result<Lossy, Refusal>) -> usize
    ensures { result ≡ (lossy_outcome w).1 }
{
    match w {
        Ok(length) => length.bytes,
        Err(_) => 0,
    }
}

// How long the lossy text is that stands at the front of out, 0 where it is refused.
#[unsafe(no_mangle)]
pub extern "C" fn bench_lossy(text: &[u8], out: &mut [u8]) -> usize
    ensures { (result, out.new) ≡ lossy_written text.now out.old }
{
    bytes_of(lossy::write_lossy(text, out))
}

// The same on the plain path.
#[unsafe(no_mangle)]
pub extern "C" fn bench_lossy_plain(text: &[u8], out: &mut [u8]) -> usize
    ensures { (result, out.new) ≡ lossy_written text.now out.old }
{
    bytes_of(lossy::plain::write_lossy(text, out))
}

// The same by the table throughout.
#[unsafe(no_mangle)]
pub extern "C" fn bench_lossy_by_table(text: &[u8], out: &mut [u8]) -> usize
    ensures { (result, out.new) ≡ lossy_written text.now out.old }
{
    bytes_of(lossy::by_table::write_lossy(text, out))
}

#[unsafe(no_mangle)]
pub extern "C" fn bench_well_formed_prefix(text: &[u8]) -> usize
    ensures { result ≡ stretch_of text.now }
{
    lossy::well_formed_prefix(text)
}

// The same on the plain path.
#[unsafe(no_mangle)]
pub extern "C" fn bench_well_formed_prefix_plain(text: &[u8]) -> usize
    ensures { result ≡ stretch_of text.now }
{
    lossy::plain::well_formed_prefix(text)
}

// How long the stream is of so many messages that are drawn from a seed, 0 where it is refused.
#[unsafe(no_mangle)]
pub extern "C" fn bench_load(seed: u64, messages: u64, out: &mut [u8]) -> usize
    ensures { (result, out.new) ≡ load_written seed messages out.old }
{
    match load::write_load(seed, messages, out) {
        Ok(n) => n,
        Err(_) => 0,
    }
}
