// Kinds of records whose line is a writer's: the refusal, how many bytes were written, the sum of the output, and the bytes; of a lossy text its
// marks, too.
ghost use Rattle.std.specs.Prelude.{◌≡◌, ◌++◌};
ghost use Rattle.test_lines.specs.Line.{pieces, number_texts, sum_of, part_texts};

use crate::{generated, names};
use load::Refusal;
use lossy::Lossy;
use lsn::Lsn;
use test_lines::fields;

// What a writer answered: how many bytes and marks it wrote.
pub(crate) type Answer = Result<Lossy, Refusal>;

pub(crate) fn written(w: Result<usize, error::Refusal>) -> Answer {
    match w {
        Ok(bytes) => Ok(Lossy { bytes, marks: 0 }),
        Err(r) => Err(Refusal::Writer(r)),
    }
}

fn shown(w: Result<Lossy, error::Refusal>) -> Answer {
    w.map_err(Refusal::Writer)
}

fn of_text(kind: u8, input: &[u8], out: &mut [u8]) -> Answer {
    match kind {
        b'q' => written(frontend::write_query(input, out)),
        b'y' => written(frontend::write_copy_data(input, out)),
        b'l' => shown(lossy::plain::write_lossy(input, out)),
        b'u' => shown(lossy::write_lossy(input, out)),
        b'U' => shown(lossy::by_table::write_lossy(input, out)),
        _ => shown(messages::parse_error_response(input, out)),
    }
}

// An input of another length is malformed.
fn display(input: &[u8], out: &mut [u8]) -> Option<Answer> {
    if input.len() != 8 {
        return None;
    }
    let position = Lsn::from_u64(fields::long(input, 0));
    Some(written(position.display(out)))
}

// A position, a client time and a reply byte.
fn status(input: &[u8], out: &mut [u8]) -> Option<Answer> {
    if input.len() != 17 {
        return None;
    }
    let position = Lsn::from_u64(fields::long(input, 0));
    let time = fields::signed_long(input, 8);
    let reply = fields::byte(input, 16) != 0;
    Some(written(frontend::write_status_update(position, time, reply, out)))
}

// None for a malformed record.
fn write(kind: u8, input: &[u8], out: &mut [u8]) -> Option<Answer> {
    match kind {
        b'q' | b'y' | b'l' | b'u' | b'U' | b'e' => Some(of_text(kind, input, out)),
        b'z' => Some(written(frontend::write_copy_done(out))),
        b'x' => Some(written(frontend::write_terminate(out))),
        b'd' => display(input, out),
        b't' => status(input, out),
        b'n' => generated::stream(input, out),
        _ => names::named(kind, input, out),
    }
}

// The refusal, how many bytes were written, the sum of the whole output, and the bytes that were written.
fn spelled(line: &mut [u8], refusal: u8, count: usize, out: &[u8]) -> usize
    ensures { (result, line.new)
        ≡ pieces line.old 1
        (number_texts refusal ++ (number_texts count ++ (number_texts (sum_of out.now) ++ part_texts out.now 0 count))) }
{
    let a = test_lines::number(line, 1, refusal as u64);
    let b = test_lines::number(line, a, count as u64);
    let c = test_lines::number(line, b, test_lines::sum(out));
    test_lines::part(line, c, out, 0, count)
}

pub(crate) fn after_fields(
    kind: u8,
    input: &[u8],
    out: &mut [u8],
    line: &mut [u8],
) -> Option<usize> {
    let (refusal, wrote) = match write(kind, input, out)? {
        Ok(wrote) => (0, wrote),
        Err(r) => (r.number(), Lossy { bytes: 0, marks: 0 }),
    };
    let at = spelled(line, refusal, wrote.bytes, out);
    match kind {
        b'l' | b'u' | b'U' | b'e' => Some(test_lines::number(line, at, wrote.marks as u64)),
        _ => Some(at),
    }
}
