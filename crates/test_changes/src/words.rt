// Words of a line: a letter, a name, a value, a description.
use rows::{Column, Description, Part, Refusal};

// A space and a letter.
pub(crate) fn letter(line: &mut [u8], at: usize, b: u8) -> usize {
    wire::store::place(line, at, &[b' ', b])
}

// The bytes that a part names, in hexadecimal. A part is never clipped.
fn hex(line: &mut [u8], at: usize, input: &[u8], p: Part) -> usize {
    if !test_lines::within(input, p.from, p.len) {
        return test_lines::outside(line, at);
    }
    text::place_hex_bytes(line, at, &input[p.from..p.from + p.len])
}

// A letter and the bytes of a part after it.
fn lettered(line: &mut [u8], at: usize, b: u8, input: &[u8], p: Part) -> usize {
    let a = letter(line, at, b);
    hex(line, a, input, p)
}

// A name is `x` and its bytes.
pub(crate) fn name(line: &mut [u8], at: usize, input: &[u8], p: Part) -> usize {
    lettered(line, at, b'x', input, p)
}

// A refusal where there should be none.
fn refused(line: &mut [u8], at: usize, n: u8) -> usize {
    let a = wire::store::place(line, at, b" refused");
    test_lines::number(line, a, n as u64)
}

// A column by its letter.
pub(crate) fn column(
    line: &mut [u8],
    at: usize,
    input: &[u8],
    c: Result<(Column, usize), Refusal>,
) -> usize {
    match c {
        Ok((Column::Null, _)) => letter(line, at, b'n'),
        Ok((Column::Unchanged, _)) => letter(line, at, b'u'),
        Ok((Column::Text(p), _)) => lettered(line, at, b't', input, p),
        Ok((Column::Binary(p), _)) => lettered(line, at, b'b', input, p),
        Err(r) => refused(line, at, r.number()),
    }
}

// Flags, name, type and type modifier with colons between them.
fn described(line: &mut [u8], at: usize, input: &[u8], d: Description) -> usize {
    let a = test_lines::number(line, at, d.flags as u64);
    let b = wire::store::place(line, a, b":x");
    let c = hex(line, b, input, d.name);
    let e = wire::store::place(line, c, b":");
    let f = text::place_decimal(line, e, d.oid as u64);
    let g = wire::store::place(line, f, b":");
    text::place_signed(line, g, i64::from(d.modifier))
}

// A description, or a refusal.
pub(crate) fn description(
    line: &mut [u8],
    at: usize,
    input: &[u8],
    d: Result<(Description, usize), Refusal>,
) -> usize {
    match d {
        Ok((description, _)) => described(line, at, input, description),
        Err(r) => refused(line, at, r.number()),
    }
}

// An identifier, or a refusal.
pub(crate) fn identifier(line: &mut [u8], at: usize, i: Result<(u32, usize), Refusal>) -> usize {
    match i {
        Ok((id, _)) => test_lines::number(line, at, id as u64),
        Err(r) => refused(line, at, r.number()),
    }
}

// The place after what was read; a refused reader stays.
pub(crate) fn after<T: Copy>(read: Result<(T, usize), Refusal>, from: usize) -> usize {
    match read {
        Ok((_, next)) => next,
        Err(_) => from,
    }
}
