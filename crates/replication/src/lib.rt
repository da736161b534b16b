#![tactic(auto)]
// CopyData of the replication stream.
ghost use Rattle.std.specs.Prelude.{◌≡◌};
ghost use Rattle.replication.specs.CopyData.{copy_data_of, said_by, values, xlog_of, keep_alive_of, is_xlog_data, is_keep_alive, asks_reply};

use error::Refusal;
use lsn::Lsn;

// The data are a part of the payload.
#[derive(Clone, Copy)]
pub enum CopyData {
    XLogData {
        wal_start: Lsn,
        wal_end: Lsn,
        server_time: i64,
        from: usize,
        len: usize,
    },
    KeepAlive {
        wal_end: Lsn,
        server_time: i64,
        reply: bool,
    },
}

impl CopyData {
    pub fn is_xlog_data(self) -> bool
        ensures { result ≡ is_xlog_data (values self) }
    {
        matches!(self, CopyData::XLogData { .. })
    }

    pub fn is_keepalive(self) -> bool
        ensures { result ≡ is_keep_alive (values self) }
    {
        matches!(self, CopyData::KeepAlive { .. })
    }

    // Whether it is a keepalive that asks for a reply.
    pub fn requires_reply(self) -> bool
        ensures { result ≡ asks_reply (values self) }
    {
        matches!(self, CopyData::KeepAlive { reply: true, .. })
    }
}

// Of an answer of `parse_copy_data`: a refusal is neither an XLogData nor a keepalive, and asks for no reply.
pub fn is_xlog_data(answer: Result<CopyData, Refusal>) -> bool
    ensures { result ≡ is_xlog_data (said_by answer) }
{
    matches!(answer, Ok(CopyData::XLogData { .. }))
}

pub fn is_keepalive(answer: Result<CopyData, Refusal>) -> bool
    ensures { result ≡ is_keep_alive (said_by answer) }
{
    matches!(answer, Ok(CopyData::KeepAlive { .. }))
}

// Whether the answer is a keepalive that asks for a reply.
pub fn requires_reply(answer: Result<CopyData, Refusal>) -> bool
    ensures { result ≡ asks_reply (said_by answer) }
{
    matches!(answer, Ok(CopyData::KeepAlive { reply: true, .. }))
}

// An XLogData, of which body is what follows the letter. The data begin at place 25 of the payload.
fn xlog_data(body: &[u8]) -> Result<CopyData, Refusal>
    ensures { said_by result ≡ xlog_of body.now }
{
    let Some(start) = wire::field::read_u64(body, 0) else {
        return Err(Refusal::XLogDataTooShort);
    };
    let Some(end) = wire::field::read_u64(body, 8) else {
        return Err(Refusal::XLogDataTooShort);
    };
    let Some(server_time) = wire::field::read_i64(body, 16) else {
        return Err(Refusal::XLogDataTooShort);
    };
    Ok(CopyData::XLogData {
        wal_start: Lsn(start),
        wal_end: Lsn(end),
        server_time,
        from: 25,
        len: body.len() - 24,
    })
}

// A keepalive, of which body is what follows the letter. Any reply byte but 0 asks for a reply.
fn keep_alive(body: &[u8]) -> Result<CopyData, Refusal>
    ensures { said_by result ≡ keep_alive_of body.now }
{
    let Some(end) = wire::field::read_u64(body, 0) else {
        return Err(Refusal::KeepaliveTooShort);
    };
    let Some(server_time) = wire::field::read_i64(body, 8) else {
        return Err(Refusal::KeepaliveTooShort);
    };
    let Some(reply) = wire::field::read_u8(body, 16) else {
        return Err(Refusal::KeepaliveTooShort);
    };
    Ok(CopyData::KeepAlive {
        wal_end: Lsn(end),
        server_time,
        reply: reply != 0,
    })
}

// What a CopyData payload says.
pub fn parse_copy_data(payload: &[u8]) -> Result<CopyData, Refusal>
    ensures { said_by result ≡ copy_data_of payload.now }
{
    if payload.len() == 0 {
        return Err(Refusal::EmptyCopyData);
    }
    let letter = payload[0];
    if letter == b'w' {
        return xlog_data(&payload[1..]);
    }
    if letter == b'k' {
        return keep_alive(&payload[1..]);
    }
    Err(Refusal::UnknownCopyData)
}
