// A reader whose buffer is one byte short for one read, in a header and in a payload: refused with 3, and what was read before is kept.
use crate::told;
use error::Refusal;
use framing::{MessageReader, Whole};
use std::io::Stdout;

fn answer(output: Stdout, a: Result<Option<Whole>, Refusal>, taken: usize, payload: &[u8]) {
    match a {
        Ok(None) => told(output, b'G', 0, 0, taken as u64, test_lines::sum(payload)),
        Ok(Some(whole)) => told(
            output,
            b'G',
            whole.tag as u64,
            whole.len as u64,
            taken as u64,
            test_lines::sum(payload),
        ),
        Err(r) => told(
            output,
            b'G',
            0,
            r.number() as u64,
            taken as u64,
            test_lines::sum(payload),
        ),
    }
}

fn read(output: Stdout, reader: MessageReader, bytes: &[u8], payload: &mut [u8]) -> MessageReader {
    let s = reader.read(10, bytes, false, payload);
    answer(output, s.answer, s.taken, payload);
    s.reader
}

// First some bytes, then the rest with a short buffer, then the rest again, and another message.
fn parted(output: Stdout, first: &[u8], rest: &[u8]) {
    let mut short = [7u8; 9];
    let mut payload = [7u8; 10];
    let a = read(output, MessageReader::new(), first, &mut payload);
    let b = read(output, a, rest, &mut short);
    let c = read(output, b, rest, &mut payload);
    read(output, c, b"e\x00\x00\x00\x05f", &mut payload);
}

pub(crate) fn all(output: Stdout) {
    parted(output, b"", b"d\x00\x00\x00\x08wxyz");
    parted(output, b"d\x00\x00", b"\x00\x08wxyz");
    parted(output, b"d\x00\x00\x00\x08", b"wxyz");
    parted(output, b"d\x00\x00\x00\x08wx", b"yz");
}
