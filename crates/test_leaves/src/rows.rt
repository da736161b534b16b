// Rows.
use crate::shown::{accepted, null, refused};
use query::Column;

fn column(line: &mut [u8], at: usize, payload: &[u8], i: usize) -> usize {
    match query::data_row::column(payload, i) {
        Ok(Column::Null) => null(line, at),
        Ok(Column::Part(from, len)) => test_lines::part(line, at, payload, from, len),
        Ok(Column::Absent) => at,
        Err(r) => test_lines::number(line, at, r.number() as u64),
    }
}

// n columns, one after the other.
pub(crate) fn columns(line: &mut [u8], from: usize, payload: &[u8], n: usize) -> usize {
    let mut at = from;
    for i in 0..n {
        at = column(line, at, payload, i);
    }
    at
}

pub(crate) fn row(line: &mut [u8], input: &[u8]) -> usize {
    match query::data_row::parse_data_row(input) {
        Ok(n) => {
            let a = accepted(line);
            let b = test_lines::number(line, a, n as u64);
            columns(line, b, input, n)
        }
        Err(r) => refused(line, r.number()),
    }
}
