// Columns by their number: the refusal, 0 for none, 1 for null and 2 for a value, and where a value begins and how long it is.
use crate::told;
use query::Column;
use std::io::Stdout;

fn column(output: Stdout, payload: &[u8], i: usize) {
    match query::data_row::column(payload, i) {
        Ok(Column::Absent) => told(output, b'C', 0, 0, 0, 0),
        Ok(Column::Null) => told(output, b'C', 0, 1, 0, 0),
        Ok(Column::Part(from, len)) => told(output, b'C', 0, 2, from as u64, len as u64),
        Err(r) => told(output, b'C', r.number() as u64, 0, 0, 0),
    }
}

// The first four, and the last that a number can ask for.
fn columns(output: Stdout, payload: &[u8]) {
    for i in [0, 1, 2, 3, usize::MAX] {
        column(output, payload, i);
    }
}

// Two columns, one of them null, and surplus bytes; a negative number of columns; a cut length; a cut value; no byte.
pub(crate) fn all(output: Stdout) {
    columns(
        output,
        b"\x00\x02\xFF\xFF\xFF\xFF\x00\x00\x00\x02ab\xFF\xFF\xFF\xFF",
    );
    columns(output, b"\x80\x00\x00\x00\x00\x01a");
    columns(output, b"\x00\x02\x00\x00\x00\x01a\x00\x00\x00");
    columns(output, b"\x00\x02\x00\x00\x00\x01a\x00\x00\x00\x01");
    columns(output, b"");
}
