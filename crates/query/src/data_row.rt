// DataRow.
ghost use Rattle.std.specs.Prelude.{◌≡◌, eqb};
ghost use Rattle.wire.specs.Bytes.{pick};
ghost use Rattle.wire.specs.Answer.{maybe};
ghost use Rattle.error.specs.Writer.{outcome};
ghost use Rattle.query.specs.DataRow.{column_at, columns_from, columns_of, count_of, column_of, column_outcome};
ghost use Rattle.query.specs.Code.{picked_of};

use crate::Column;
use error::Refusal;
use wire::field::{FIRST_NEGATIVE_16, FIRST_NEGATIVE_32};

// A column, and the place after it.
fn column_at(payload: &[u8], at: usize) -> Option<(Column, usize)>
    ensures { maybe result ≡ column_at payload.now at }
{
    let len = wire::field::read_u32(payload, at)?;
    let from = at + 4;
    if FIRST_NEGATIVE_32 <= len {
        return Some((Column::Null, from));
    }
    let n = len as usize;
    if payload.len() - from < n {
        return None;
    }
    Some((Column::Part(from, n), from + n))
}

// The walk over n columns, which keeps the i-th: how many columns there are, and that one.
fn walk(payload: &[u8], n: usize, i: usize) -> Option<(usize, Column)>
    ensures { maybe result ≡ picked_of (columns_from n payload.now 2) i }
{
    let mut at: usize = 2;
    let mut c = Column::Absent;
    for k in 0..n {
        let (one, next) = column_at(payload, at)?;
        if k == i {
            c = one;
        }
        at = next;
    }
    Some((n, c))
}

// The walk over a whole DataRow. It goes on to the end after column i, since a row that is cut further on is malformed too.
fn walk_data_row(payload: &[u8], i: usize) -> Option<(usize, Column)>
    ensures { maybe result ≡ picked_of (columns_of payload.now) i }
{
    let n = wire::field::read_u16(payload, 0)?;
    if FIRST_NEGATIVE_16 <= n {
        return Some((0, Column::Absent));
    }
    walk(payload, n as usize, i)
}

// How many columns a DataRow has.
pub fn parse_data_row(payload: &[u8]) -> Result<usize, Refusal>
    ensures { outcome result ≡ count_of (columns_of payload.now) }
{
    match walk_data_row(payload, 0) {
        Some((n, _)) => Ok(n),
        None => Err(Refusal::MalformedDataRow),
    }
}

// One column, from 0.
pub fn column(payload: &[u8], i: usize) -> Result<Column, Refusal>
    ensures { column_outcome result ≡ column_of (columns_of payload.now) i }
{
    let Some((_, c)) = walk_data_row(payload, i) else {
        return Err(Refusal::MalformedDataRow);
    };
    Ok(c)
}
