// How far the columns of a tuple, the descriptions of a Relation and the identifiers of a Truncate go.
ghost use Rattle.std.specs.Prelude.{◌≡◌, ◌+◌, length};
ghost use Rattle.rows.specs.Layout.{Layout, number, many, nothing, read_at, times_at, mapped};
ghost use Rattle.rows.specs.Rows.{column_layout, described_layout, new_layout, new_of};
ghost use Rattle.rows.specs.Head.{end_by, counted_by};

use crate::{Refusal, Tuple, items};
use wire::field::FIRST_NEGATIVE_16;

// What is repeated in a message: how it lies in the data, and where each one ends.
pub(crate) trait Repeated {
    ghost layout: { Layout };

    // The place after one.
    fn after(bytes: &[u8], at: usize) -> Result<usize, Refusal>
        ensures { end_by result ≡ mapped (λ v. tt) (read_at layout bytes.now at) };
}

// The columns of a tuple.
pub(crate) struct Columns;

impl Repeated for Columns {
    ghost layout = { column_layout };

    // A column is passed without telling what it is: of a row's time most goes here.
    fn after(bytes: &[u8], at: usize) -> Result<usize, Refusal> {
        let Some(letter) = wire::field::read_u8(bytes, at) else {
            return Err(Refusal::FieldCut);
        };
        let from = at + 1;
        if letter == b'n' {
            return Ok(from);
        }
        if letter == b'u' {
            return Ok(from);
        }
        if letter == b't' || letter == b'b' {
            let (_, next) = items::bytes_at(bytes, from)?;
            return Ok(next);
        }
        Err(Refusal::UnknownLetter)
    }
}

// The columns of a Relation.
pub(crate) struct Descriptions;

impl Repeated for Descriptions {
    ghost layout = { described_layout };

    fn after(bytes: &[u8], at: usize) -> Result<usize, Refusal> {
        let (_, next) = items::description_at(bytes, at)?;
        Ok(next)
    }
}

// The relations of a Truncate.
pub(crate) struct Identifiers;

impl Repeated for Identifiers {
    ghost layout = { number 4 };

    fn after(bytes: &[u8], at: usize) -> Result<usize, Refusal> {
        let (_, next) = items::identifier_at(bytes, at)?;
        Ok(next)
    }
}

// The place after n of them, one after the other. Out of line: within the function of a whole row each turn of the loop would go through the stack.
#[inline(never)]
pub(crate) fn after_all<R: Repeated>(bytes: &[u8], from: usize, n: usize) -> Result<usize, Refusal>
    ensures { end_by result ≡ mapped (λ v. tt) (times_at (λ q. read_at R.layout bytes.now q) n from) }
{
    let mut at = from;
    for _ in 0..n {
        at = R::after(bytes, at)?;
    }
    Ok(at)
}

// A count of 16 bits, and so many columns or descriptions.
pub(crate) fn counted_at<R: Repeated>(bytes: &[u8], at: usize) -> Result<(Tuple, usize), Refusal>
    ensures { counted_by result ≡ mapped (λ v. (length v.1, at + 2)) (read_at (many 2 nothing R.layout) bytes.now at) }
{
    let Some(n) = wire::field::read_u16(bytes, at) else {
        return Err(Refusal::FieldCut);
    };
    if FIRST_NEGATIVE_16 <= n {
        return Err(Refusal::FieldCut);
    }
    let from = at + 2;
    let columns = n as usize;
    let tuple = Tuple { columns, from };
    let next = after_all::<R>(bytes, from, columns)?;
    Ok((tuple, next))
}

// `N` and the new tuple.
pub(crate) fn new_at(bytes: &[u8], at: usize) -> Result<(Tuple, usize), Refusal>
    ensures { counted_by result ≡ mapped (λ v. (length (new_of v), at + 3)) (read_at new_layout bytes.now at) }
{
    let Some(letter) = wire::field::read_u8(bytes, at) else {
        return Err(Refusal::FieldCut);
    };
    if letter == b'N' {
        return counted_at::<Columns>(bytes, at + 1);
    }
    Err(Refusal::UnknownLetter)
}
