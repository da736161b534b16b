// Kinds of records whose input is read: each answers the place after the line's fields, which begin after the kind.
use crate::shown::{accepted, null, refused};
use crate::{boundaries, calendar, generated, rows, session};
use lsn::Lsn;
use messages::{ErrorFields, Field};
use replication::CopyData;

fn position(line: &mut [u8], input: &[u8]) -> usize {
    match Lsn::parse(input) {
        Ok(p) => {
            let a = accepted(line);
            test_lines::position(line, a, p)
        }
        Err(r) => refused(line, r.number()),
    }
}

fn auth(line: &mut [u8], input: &[u8]) -> usize {
    match messages::parse_auth_request(input) {
        Ok(request) => {
            let a = accepted(line);
            let b = test_lines::long(line, a, i64::from(request.code));
            test_lines::part(line, b, input, request.from, request.len)
        }
        Err(r) => refused(line, r.number()),
    }
}

fn copy_data(line: &mut [u8], input: &[u8]) -> usize {
    match replication::parse_copy_data(input) {
        Ok(
            CopyData::XLogData {
                wal_start,
                wal_end,
                server_time,
                from,
                len,
            },
        ) => {
            let a = accepted(line);
            let b = wire::store::place(line, a, b" w");
            let c = test_lines::position(line, b, wal_start);
            let d = test_lines::position(line, c, wal_end);
            let e = test_lines::long(line, d, server_time);
            test_lines::part(line, e, input, from, len)
        }
        Ok(
            CopyData::KeepAlive {
                wal_end,
                server_time,
                reply,
            },
        ) => {
            let a = accepted(line);
            let b = wire::store::place(line, a, b" k");
            let c = test_lines::position(line, b, wal_end);
            let d = test_lines::long(line, c, server_time);
            test_lines::flag(line, d, reply)
        }
        Err(r) => refused(line, r.number()),
    }
}

fn field(line: &mut [u8], at: usize, input: &[u8], field: Option<Field>) -> usize {
    match field {
        Some(f) => test_lines::part(line, at, input, f.from, f.len),
        None => null(line, at),
    }
}

fn fields(line: &mut [u8], input: &[u8]) -> usize {
    let all = ErrorFields::parse(input);
    let mut at = accepted(line);
    for i in 0..15 {
        at = field(line, at, input, all.field(i));
    }
    at
}

// An unknown kind is malformed.
pub(crate) fn after_fields(kind: u8, input: &[u8], line: &mut [u8]) -> Option<usize> {
    match kind {
        b'p' => Some(position(line, input)),
        b'a' => Some(auth(line, input)),
        b'c' => Some(copy_data(line, input)),
        b'b' => Some(boundaries::boundary(line, input)),
        b'f' => Some(fields(line, input)),
        b'r' => Some(rows::row(line, input)),
        b'm' => Some(session::simple(line, input)),
        b'k' => generated::events(line, input),
        b'v' => calendar::after_fields(line, input),
        b'w' => Some(test_lines::number(line, 1, lossy::well_formed_prefix(input) as u64)),
        _ => None,
    }
}
