// One column, one description, one identifier at a place.
ghost use Rattle.std.specs.Prelude.{◌≡◌, ◌+◌, length};
ghost use Rattle.rows.specs.Layout.{name, value, read_at, mapped};
ghost use Rattle.rows.specs.Head.{span_of, told_description, typed_layout, part_by, cell_at, column_at, column_by};
ghost use Rattle.rows.specs.Head.{described_at, description_at, description_by, identifier_at, identifier_by};

use crate::{Column, Description, Part, Refusal};

// A name goes to the first zero byte.
pub(crate) fn name_at(bytes: &[u8], at: usize) -> Result<(Part, usize), Refusal>
    ensures { part_by result ≡ mapped (λ v. (at, length v)) (read_at name bytes.now at) }
{
    let Some(len) = reader::zero_after(bytes, at, 0) else {
        return Err(Refusal::FieldCut);
    };
    let part = Part { from: at, len };
    Ok((part, at + len + 1))
}

// The longest value: a length from 2^31 on is negative.
const LONGEST: usize = 2147483647;

// A value's length and its bytes. The length is compared once and whole, so that its four bytes are loaded at once.
pub(crate) fn bytes_at(bytes: &[u8], at: usize) -> Result<(Part, usize), Refusal>
    ensures { part_by result ≡ mapped (λ v. (at + 4, length v)) (read_at value bytes.now at) }
{
    let Some(len) = wire::field::read_u32(bytes, at) else {
        return Err(Refusal::FieldCut);
    };
    let from = at + 4;
    let n = len as usize;
    if (bytes.len() - from).min(LONGEST) < n {
        return Err(Refusal::FieldCut);
    }
    let part = Part { from, len: n };
    Ok((part, from + n))
}

// The column of a tuple that stands at a place.
pub fn column_at(bytes: &[u8], at: usize) -> Result<(Column, usize), Refusal>
    ensures { column_by result ≡ mapped (cell_at at) (column_at bytes.now at) }
{
    let Some(letter) = wire::field::read_u8(bytes, at) else {
        return Err(Refusal::FieldCut);
    };
    let from = at + 1;
    if letter == b'n' {
        return Ok((Column::Null, from));
    }
    if letter == b'u' {
        return Ok((Column::Unchanged, from));
    }
    if letter == b't' {
        let (part, next) = bytes_at(bytes, from)?;
        return Ok((Column::Text(part), next));
    }
    if letter == b'b' {
        let (part, next) = bytes_at(bytes, from)?;
        return Ok((Column::Binary(part), next));
    }
    Err(Refusal::UnknownLetter)
}

// The type and the type modifier of a description whose flags and name were read.
fn typed(bytes: &[u8], flags: u8, name: Part, at: usize) -> Result<(Description, usize), Refusal>
    ensures { description_by result
        ≡ mapped (λ v. told_description flags (span_of name) v.0 v.1) (read_at typed_layout bytes.now at) }
{
    let Some(oid) = wire::field::read_u32(bytes, at) else {
        return Err(Refusal::FieldCut);
    };
    let Some(modifier) = wire::field::read_i32(bytes, at + 4) else {
        return Err(Refusal::FieldCut);
    };
    let description = Description {
        flags,
        name,
        oid,
        modifier,
    };
    Ok((description, at + 8))
}

// The column of a relation that is described at a place.
pub fn description_at(bytes: &[u8], at: usize) -> Result<(Description, usize), Refusal>
    ensures { description_by result ≡ mapped (described_at at) (description_at bytes.now at) }
{
    let Some(flags) = wire::field::read_u8(bytes, at) else {
        return Err(Refusal::FieldCut);
    };
    let (name, next) = name_at(bytes, at + 1)?;
    typed(bytes, flags, name, next)
}

// The identifier that stands at a place.
pub fn identifier_at(bytes: &[u8], at: usize) -> Result<(u32, usize), Refusal>
    ensures { identifier_by result ≡ identifier_at bytes.now at }
{
    let Some(id) = wire::field::read_u32(bytes, at) else {
        return Err(Refusal::FieldCut);
    };
    Ok((id, at + 4))
}
