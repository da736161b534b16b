// Messages written into a lent slice. Each function answers the place after what it wrote.
ghost use Rattle.std.specs.Prelude.{◌≡◌, ◌∷◌, ◌+◌, ◌≤◌, ◌<◌, length, replicate, pos};
ghost use Rattle.wire.specs.Bytes.{placed};
ghost use Rattle.replication.specs.CopyData.{keep_alive};
ghost use Rattle.pgoutput.specs.Boundary.{begin_bytes, commit_bytes};
ghost use Rattle.load.specs.Load.{bit, bytes_of};
ghost use Rattle.load.specs.declared.Message.TheVariants.{KeepAlive, Begin, Data, Commit};
ghost use Rattle.load.specs.Code.{header, xlog_head};

use crate::Message;
use wire::field::{write_i64, write_u8, write_u64};
use wire::store::write_be;

// More letters than other data has.
const LETTERS: [u8; 255] = [65; 255];

// How many bytes a message has on the wire.
pub(crate) fn message_len(m: Message) -> usize
    ensures { result ≡ length (bytes_of m) }
{
    match m {
        Message::KeepAlive { end: _, reply: _ } => 23,
        Message::Begin {
            start: _,
            end: _,
            final_lsn: _,
            xid: _,
        } => 51,
        Message::Data {
            start: _,
            end: _,
            letters,
        } => letters as usize + 31,
        Message::Commit {
            start: _,
            end: _,
            lsn: _,
            end_lsn: _,
        } => 56,
    }
}

// The header of a CopyData message with a payload of n bytes.
fn place_header(out: &mut [u8], to: usize, n: usize) -> usize
    requires { (to + 5 ≤ length out.old) × (n < 1000) }
    ensures { (result, out.new) ≡ placed out.old to (header n) }
{
    let a = write_u8(out, to, b'd');
    write_be(out, a, 4, (n + 4) as u64)
}

// What stands before the data of an XLogData.
fn place_xlog_head(out: &mut [u8], to: usize, start: u64, end: u64) -> usize
    requires { to + 25 ≤ length out.old }
    ensures { (result, out.new) ≡ placed out.old to (xlog_head start end) }
{
    let a = write_u8(out, to, b'w');
    let b = write_u64(out, a, start);
    let c = write_u64(out, b, end);
    write_u64(out, c, 0)
}

fn place_keep_alive(out: &mut [u8], to: usize, end: u64, reply: bool) -> usize
    requires { to + 18 ≤ length out.old }
    ensures { (result, out.new) ≡ placed out.old to (keep_alive end (pos 0) (bit reply)) }
{
    let a = write_u8(out, to, b'k');
    let b = write_u64(out, a, end);
    let c = write_u64(out, b, 0);
    write_u8(out, c, reply as u8)
}

fn place_begin(out: &mut [u8], to: usize, final_lsn: u64, xid: u32) -> usize
    requires { to + 21 ≤ length out.old }
    ensures { (result, out.new) ≡ placed out.old to (begin_bytes final_lsn (pos 0) xid) }
{
    let a = write_u8(out, to, b'B');
    let b = write_u64(out, a, final_lsn);
    let c = write_u64(out, b, 0);
    write_be(out, c, 4, xid as u64)
}

fn place_letters(out: &mut [u8], to: usize, n: u8) -> usize
    requires { to + n + 1 ≤ length out.old }
    ensures { (result, out.new) ≡ placed out.old to (73 ∷ replicate n 65) }
{
    let letters = LETTERS;
    let a = write_u8(out, to, b'I');
    wire::store::place(out, a, &letters[..n as usize])
}

fn place_commit(out: &mut [u8], to: usize, lsn: u64, end_lsn: u64) -> usize
    requires { to + 26 ≤ length out.old }
    ensures { (result, out.new) ≡ placed out.old to (commit_bytes 0 lsn end_lsn (pos 0)) }
{
    let a = write_u8(out, to, b'C');
    let b = write_u8(out, a, 0);
    let c = write_u64(out, b, lsn);
    let d = write_u64(out, c, end_lsn);
    write_u64(out, d, 0)
}

fn keep_alive_message(out: &mut [u8], to: usize, end: u64, reply: bool) -> usize
    requires { to + 23 ≤ length out.old }
    ensures { (result, out.new) ≡ placed out.old to (bytes_of (KeepAlive end reply)) }
{
    let a = place_header(out, to, 18);
    place_keep_alive(out, a, end, reply)
}

fn begin_message(out: &mut [u8], to: usize, start: u64, end: u64, final_lsn: u64, xid: u32) -> usize
    requires { to + 51 ≤ length out.old }
    ensures { (result, out.new) ≡ placed out.old to (bytes_of (Begin start end final_lsn xid)) }
{
    let a = place_header(out, to, 46);
    let b = place_xlog_head(out, a, start, end);
    place_begin(out, b, final_lsn, xid)
}

fn data_message(out: &mut [u8], to: usize, start: u64, end: u64, letters: u8) -> usize
    requires { to + letters + 31 ≤ length out.old }
    ensures { (result, out.new) ≡ placed out.old to (bytes_of (Data start end letters)) }
{
    let a = place_header(out, to, letters as usize + 26);
    let b = place_xlog_head(out, a, start, end);
    place_letters(out, b, letters)
}

fn commit_message(out: &mut [u8], to: usize, start: u64, end: u64, lsn: u64, end_lsn: u64) -> usize
    requires { to + 56 ≤ length out.old }
    ensures { (result, out.new) ≡ placed out.old to (bytes_of (Commit start end lsn end_lsn)) }
{
    let a = place_header(out, to, 51);
    let b = place_xlog_head(out, a, start, end);
    place_commit(out, b, lsn, end_lsn)
}

// A whole message.
pub(crate) fn message(out: &mut [u8], to: usize, m: Message) -> usize
    requires { to + length (bytes_of m) ≤ length out.old }
    ensures { (result, out.new) ≡ placed out.old to (bytes_of m) }
{
    match m {
        Message::KeepAlive { end, reply } => keep_alive_message(out, to, end, reply),
        Message::Begin {
            start,
            end,
            final_lsn,
            xid,
        } => begin_message(out, to, start, end, final_lsn, xid),
        Message::Data {
            start,
            end,
            letters,
        } => data_message(out, to, start, end, letters),
        Message::Commit {
            start,
            end,
            lsn,
            end_lsn,
        } => commit_message(out, to, start, end, lsn, end_lsn),
    }
}
