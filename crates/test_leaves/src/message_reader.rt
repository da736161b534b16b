// A reader on its own, fed by pieces.
ghost use Rattle.std.specs.Prelude.{◌≡◌, [], ◌∷◌, ◌++◌};
ghost use Rattle.test_lines.specs.Line.{pieces, number_texts};

use error::Refusal;
use framing::{MessageReader, Whole};
use test_lines::fields;

// Where the line goes on after all reads, and the reader, or none, where a refusal ended it.
#[derive(Clone, Copy)]
struct Fed {
    at: usize,
    reader: Option<MessageReader>,
}

// ` W`, the tag and the payload's length.
fn whole(line: &mut [u8], at: usize, tag: u8, n: usize) -> usize
    ensures { (result, line.new) ≡ pieces line.old at (((32 ∷ 87 ∷ []) ∷ []) ++ (number_texts tag ++ number_texts n)) }
{
    let a = wire::store::place(line, at, b" W");
    let b = test_lines::number(line, a, tag as u64);
    test_lines::number(line, b, n as u64)
}

// ` R` and the refusal's number.
fn refused(line: &mut [u8], at: usize, refusal: u8) -> usize
    ensures { (result, line.new) ≡ pieces line.old at (((32 ∷ 82 ∷ []) ∷ []) ++ number_texts refusal) }
{
    let a = wire::store::place(line, at, b" R");
    test_lines::number(line, a, refusal as u64)
}

// What a read answered, where it does not ask for more.
fn told(line: &mut [u8], at: usize, answer: Result<Option<Whole>, Refusal>) -> usize {
    match answer {
        Ok(None) => at,
        Ok(Some(w)) => whole(line, at, w.tag, w.len),
        Err(r) => refused(line, at, r.number()),
    }
}

// Any refusal but one of a length ends the reading.
fn goes_on(answer: Result<Option<Whole>, Refusal>) -> bool {
    match answer {
        Ok(_) => true,
        Err(r) => matches!(r, Refusal::InvalidLength),
    }
}

// Every read takes a byte, so there are no more reads than bytes. A read that says that it took more than it was offered is the last one.
fn feed_all(line: &mut [u8], setting: usize, size: usize, bytes: &[u8], payload: &mut [u8]) -> Fed {
    let mut reader = MessageReader::new();
    let mut rest = bytes;
    let mut left = size;
    let mut at = 1;
    for _ in 0..bytes.len() {
        let n = left.min(rest.len());
        let s = reader.read(setting, &rest[..n], false, payload);
        at = told(line, at, s.answer);
        if n < s.taken {
            let at = test_lines::outside(line, at);
            return Fed { at, reader: None };
        }
        if !goes_on(s.answer) {
            return Fed { at, reader: None };
        }
        reader = s.reader;
        rest = &rest[s.taken..];
        if rest.is_empty() {
            break;
        }
        left = if left == s.taken {
            size
        } else {
            left - s.taken
        };
    }
    Fed {
        at,
        reader: Some(reader),
    }
}

// A limit setting, whether the input ends at last, the size of a piece, and the server's bytes. A last read, with the input's end, comes where the
// record asks for it and no refusal came.
pub(crate) fn after_fields(line: &mut [u8], input: &[u8], payload: &mut [u8]) -> Option<usize> {
    if input.len() < 7 {
        return None;
    }
    let setting = fields::word(input, 0);
    let ends = fields::byte(input, 4) != 0;
    let size = fields::half(input, 5);
    if size == 0 {
        return None;
    }
    let f = feed_all(line, setting, size, &input[7..], payload);
    let mut at = f.at;
    if ends {
        if let Some(reader) = f.reader {
            let s = reader.read(setting, b"", true, payload);
            at = told(line, at, s.answer);
        }
    }
    Some(test_lines::number(line, at, test_lines::sum(payload)))
}
