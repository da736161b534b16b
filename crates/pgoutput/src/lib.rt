#![tactic(auto)]
// The boundaries in the data of an XLogData.
ghost use Rattle.std.specs.Prelude.{◌≡◌};
ghost use Rattle.pgoutput.specs.Boundary.{boundary_of, said_by, read_by, begin_at, commit_at, message_at};

use error::Refusal;
use lsn::Lsn;
use wire::field::FIRST_NEGATIVE_32;

// Prefix and content are parts of the data.
#[derive(Clone, Copy)]
pub enum Boundary {
    Begin {
        final_lsn: Lsn,
        commit_time: i64,
        xid: u32,
    },
    Commit {
        lsn: Lsn,
        end_lsn: Lsn,
        commit_time: i64,
    },
    Message {
        transactional: bool,
        lsn: Lsn,
        prefix_from: usize,
        prefix_len: usize,
        content_from: usize,
        content_len: usize,
    },
}

// Begin, its fields from `at` on: the reader stands at `at` and is moved over the fields that were read.
fn begin_at(bytes: &[u8], at: usize) -> Result<Boundary, Refusal>
    ensures { read_by result ≡ begin_at bytes.now at }
{
    let Some(lsn) = reader::u64_after(bytes, at, 0) else {
        return Err(Refusal::TruncatedI64);
    };
    let Some(commit_time) = reader::i64_after(bytes, at, 8) else {
        return Err(Refusal::TruncatedI64);
    };
    let Some(xid) = reader::u32_after(bytes, at, 16) else {
        return Err(Refusal::TruncatedI32);
    };
    Ok(Boundary::Begin {
        final_lsn: Lsn(lsn),
        commit_time,
        xid,
    })
}

// Commit, its fields from `at` on. Its flags are unused.
fn commit_at(bytes: &[u8], at: usize) -> Result<Boundary, Refusal>
    ensures { read_by result ≡ commit_at bytes.now at }
{
    let Some(_) = reader::u8_after(bytes, at, 0) else {
        return Err(Refusal::TruncatedI8);
    };
    let Some(lsn) = reader::u64_after(bytes, at, 1) else {
        return Err(Refusal::TruncatedI64);
    };
    let Some(end) = reader::u64_after(bytes, at, 9) else {
        return Err(Refusal::TruncatedI64);
    };
    let Some(commit_time) = reader::i64_after(bytes, at, 17) else {
        return Err(Refusal::TruncatedI64);
    };
    Ok(Boundary::Commit {
        lsn: Lsn(lsn),
        end_lsn: Lsn(end),
        commit_time,
    })
}

// Message, its fields from `at` on. After the prefix stand its zero byte, the content's length and the content.
fn message_at(bytes: &[u8], at: usize) -> Result<Boundary, Refusal>
    ensures { read_by result ≡ message_at bytes.now at }
{
    let Some(flags) = reader::u8_after(bytes, at, 0) else {
        return Err(Refusal::TruncatedI8);
    };
    let Some(lsn) = reader::u64_after(bytes, at, 1) else {
        return Err(Refusal::TruncatedI64);
    };
    let from = reader::place_after(bytes, at, 9);
    let Some(len) = reader::zero_after(bytes, from, 0) else {
        return Err(Refusal::UnterminatedPrefix);
    };
    let Some(n) = reader::u32_after(bytes, from, len + 1) else {
        return Err(Refusal::TruncatedI32);
    };
    if FIRST_NEGATIVE_32 <= n {
        return Err(Refusal::ContentTooShort);
    }
    let content = reader::place_after(bytes, from, len + 5);
    if reader::left_after(bytes, content, 0) < n as usize {
        return Err(Refusal::ContentTooShort);
    }
    Ok(Boundary::Message {
        transactional: flags % 2 == 1,
        lsn: Lsn(lsn),
        prefix_from: from,
        prefix_len: len,
        content_from: content,
        content_len: n as usize,
    })
}

// What the data's first message says, if it is a boundary: `B`, `C` or `M`.
pub fn parse_pgoutput_boundary(bytes: &[u8]) -> Result<Option<Boundary>, Refusal>
    ensures { said_by result ≡ boundary_of bytes.now }
{
    if bytes.len() == 0 {
        return Ok(None);
    }
    let letter = bytes[0];
    if letter == b'B' {
        return Ok(Some(begin_at(bytes, 1)?));
    }
    if letter == b'C' {
        return Ok(Some(commit_at(bytes, 1)?));
    }
    if letter == b'M' {
        return Ok(Some(message_at(bytes, 1)?));
    }
    Ok(None)
}
