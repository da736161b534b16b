// The kinds of records. A line begins with its kind, which takes one place, and ends with a line feed.
use crate::{message_reader, readers, writers};

// The place after a line's fields; none for a malformed record.
fn after_fields(kind: u8, input: &[u8], out: &mut [u8], line: &mut [u8]) -> Option<usize> {
    match kind {
        b'd' | b'l' | b'u' | b'U' | b'e' | b'q' | b'y' | b'z' | b'x' | b't' | b'o' | b's' | b'n' =>
            { writers::after_fields(kind, input, out, line) }
        b'g' => message_reader::after_fields(line, input, out),
        _ => readers::after_fields(kind, input, line),
    }
}

// The length of the record's line; none for a malformed record.
pub(crate) fn line_of(kind: u8, input: &[u8], out: &mut [u8], line: &mut [u8]) -> Option<usize> {
    wire::store::place(line, 0, &[kind]);
    let n = after_fields(kind, input, out, line)?;
    Some(test_lines::end(line, n))
}
