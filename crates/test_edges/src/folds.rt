// An error in buffers that keep all of it or less: how many bytes are kept, how many the error had, and the sum of the whole buffer.
use crate::told;
use error::Refusal;
use query::simple::{Answer, SimpleQuery};
use std::io::Stdout;

fn answer(output: Stdout, a: Result<Answer, Refusal>, error: &[u8]) {
    let (number, kept, len) = match a {
        Ok(Answer::More) => (0, 0, 0),
        Ok(Answer::DataRow(n)) => (1, n, 0),
        Ok(Answer::Ready) => (2, 0, 0),
        Ok(Answer::Failed(kept, len)) => (3, kept, len),
        Err(r) => (4, r.number() as usize, 0),
    };
    told(
        output,
        b'E',
        number,
        kept as u64,
        len as u64,
        test_lines::sum(error),
    );
}

// The messages of a query, each a letter and its payload, into a buffer of sevens.
fn query(output: Stdout, messages: &[(u8, &[u8])], error: &mut [u8]) {
    error.fill(7);
    let mut q = SimpleQuery::new();
    for &(tag, payload) in messages {
        let s = q.message(tag, payload, error);
        answer(output, s.answer, error);
        q = s.query;
    }
}

const LONG: &[u8] = b"MABCDEF\0C42\0\0";

// With a buffer of n bytes: a long error, a shorter one that takes its place, the end, and the end of another query; then a long error and the end.
fn within(output: Stdout, space: &mut [u8], n: usize) {
    let k = n.min(space.len());
    let error = &mut space[..k];
    query(
        output,
        &[
            (b'E', LONG),
            (b'E', b"Mlast\0\0"),
            (b'Z', b"I"),
            (b'Z', b"I"),
        ],
        error,
    );
    query(output, &[(b'E', LONG), (b'Z', b"I")], error);
}

// No room, room for less than the shorter error, for one byte less than the longer, for it, and for one byte more.
pub(crate) fn all(output: Stdout) {
    let mut space = [0u8; 14];
    for n in [0, 4, 12, 13, 14] {
        within(output, &mut space, n);
    }
}
