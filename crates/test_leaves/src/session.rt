// The answers to a simple query. A row is followed by a separator, since another row or the end follows it.
ghost use Rattle.std.specs.Prelude.{◌≤◌, IfOk};

use crate::rows;
use error::Refusal;
use framing::{MessageReader, Whole};
use query::simple::{Answer, SimpleQuery};
use std::ops::ControlFlow;
use test_lines::streams;

// Why a query does not get its next message: the bytes end before, a whole message does not lie within the payload buffer or more bytes are taken than
// were offered, or the refusal.
#[derive(Clone, Copy)]
enum End {
    Bytes,
    Outside,
    Refused(Refusal),
}

// What a read answered that was offered that many bytes and says how many it took.
fn heard(
    answer: Result<Option<Whole>, Refusal>,
    room: usize,
    offered: usize,
    taken: usize,
) -> Result<Whole, End>
    ensures { IfOk result (λ w. (w.len ≤ room) × (taken ≤ offered)) }
{
    if offered < taken {
        return Err(End::Outside);
    }
    match answer {
        Ok(None) => Err(End::Bytes),
        Ok(Some(whole)) if whole.len <= room => Ok(whole),
        Ok(Some(_)) => Err(End::Outside),
        Err(r) => Err(End::Refused(r)),
    }
}

fn ended(line: &mut [u8], at: usize, end: End) -> usize {
    match end {
        End::Bytes => wire::store::place(line, at, b"-"),
        End::Outside => wire::store::place(line, at, b"outside"),
        End::Refused(r) => text::place_decimal(line, at, r.number() as u64),
    }
}

// The error's text in hexadecimal.
fn error_text(line: &mut [u8], at: usize, error: &[u8]) -> usize {
    let mut text = streams::zeros::<262144>();
    match messages::parse_error_response(error, &mut text) {
        Ok(length) => test_lines::part(line, at, &text, 0, length.bytes),
        Err(_) => test_lines::outside(line, at),
    }
}

fn row(line: &mut [u8], at: usize, payload: &[u8], n: usize) -> usize {
    let a = wire::store::place(line, at, b"D");
    let b = rows::columns(line, a, payload, n);
    wire::store::place(line, b, b" | ")
}

// An error of which the buffer does not keep all is outside it.
fn failed(line: &mut [u8], at: usize, error: &[u8], n: usize, len: usize) -> usize {
    let a = wire::store::place(line, at, b"Z error");
    if error.len() < n || n < len {
        return test_lines::outside(line, a);
    }
    error_text(line, a, &error[..n])
}

// Where the line goes on, or where it ends with the query.
fn answered(
    line: &mut [u8],
    at: usize,
    answer: Result<Answer, Refusal>,
    payload: &[u8],
    error: &[u8],
) -> ControlFlow<usize, usize> {
    match answer {
        Ok(Answer::More) => ControlFlow::Continue(at),
        Ok(Answer::DataRow(n)) => ControlFlow::Continue(row(line, at, payload, n)),
        Ok(Answer::Ready) => ControlFlow::Break(wire::store::place(line, at, b"Z ok")),
        Ok(Answer::Failed(n, len)) => ControlFlow::Break(failed(line, at, error, n, len)),
        Err(r) => ControlFlow::Break(ended(line, at, End::Refused(r))),
    }
}

// Every message takes a byte, so there are no more messages than bytes; the last turn meets the end.
fn play(line: &mut [u8], from: usize, bytes: &[u8], payload: &mut [u8], error: &mut [u8]) -> usize {
    let mut reader = MessageReader::new();
    let mut query = SimpleQuery::new();
    let mut rest = bytes;
    let mut at = from;
    for _ in 0..=bytes.len() {
        let r = reader.read(65536, rest, false, payload);
        let m = match heard(r.answer, payload.len(), rest.len(), r.taken) {
            Ok(m) => m,
            Err(end) => return ended(line, at, end),
        };
        let q = query.message(m.tag, &payload[..m.len], error);
        at = match answered(line, at, q.answer, payload, error) {
            ControlFlow::Continue(at) => at,
            ControlFlow::Break(at) => return at,
        };
        reader = r.reader;
        query = q.query;
        rest = &rest[r.taken..];
    }
    at
}

pub(crate) fn simple(line: &mut [u8], input: &[u8]) -> usize {
    let mut payload = streams::zeros::<65536>();
    let mut error = streams::zeros::<65536>();
    let a = wire::store::place(line, 1, b" ");
    play(line, a, input, &mut payload, &mut error)
}
