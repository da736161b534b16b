// Messages one after the other on an empty relation cache: what each is answered with, and the columns then held under its relation.
ghost use Rattle.std.specs.Prelude.{◌<◌, length, IfSome};

use crate::words;
use relations::{Column, Refused};
use rows::Row;
use std::io::Stdout;
use test_lines::fields;

// The message at the front, which has its length in 2 bytes before it, and what stands after it; none where it is cut.
fn first_message(input: &[u8]) -> Option<(&[u8], &[u8])>
    ensures { IfSome result (λ p. length p.1.now < length input.now) }
{
    let (len, rest) = input.split_at_checked(2)?;
    rest.split_at_checked(fields::half(len, 0))
}

// Whether the input is whole messages.
fn is_whole(input: &[u8]) -> bool {
    let mut rest = input;
    while !rest.is_empty() {
        let Some((_, after)) = first_message(rest) else {
            return false;
        };
        rest = after;
    }
    true
}

// A row's relation.
fn relation_of(row: Row) -> Option<u32> {
    match row {
        Row::Relation { id, .. } => Some(id),
        Row::Insert { relation, .. } => Some(relation),
        Row::Update { relation, .. } => Some(relation),
        Row::UpdateFrom { relation, .. } => Some(relation),
        Row::Delete { relation, .. } => Some(relation),
        _ => None,
    }
}

// The relation of the row with which a message is answered, if there is one.
fn answered(answer: Result<Option<Row>, Refused>) -> Result<Option<u32>, Refused> {
    match answer {
        Ok(Some(row)) => Ok(relation_of(row)),
        Ok(None) => Ok(None),
        Err(r) => Err(r),
    }
}

// A column: its name, whether it is of the key, its type.
fn column_word(line: &mut [u8], at: usize, names: &[u8], column: Option<Column>) -> usize {
    let Some(c) = column else {
        return wire::store::place(line, at, b" absent");
    };
    let a = words::name(line, at, names, c.name);
    let b = wire::store::place(line, a, b":");
    let d = text::place_decimal(line, b, c.key as u64);
    let e = wire::store::place(line, d, b":");
    text::place_decimal(line, e, c.oid as u64)
}

// The columns held under an identifier.
fn held_columns(
    line: &mut [u8],
    from: usize,
    held: u64,
    ids: &[u32; 64],
    counts: &[u8; 64],
    columns: &[u64; 2048],
    names: &[u8; 129024],
    id: u32,
) -> usize {
    let n = packed_relations::columns_held(held, ids, counts, id).unwrap_or(0);
    let mut at = test_lines::number(line, from, id as u64);
    for k in 0..n {
        let c = packed_relations::held_column(held, ids, counts, columns, names, id, k);
        at = column_word(line, at, names, c);
    }
    at
}

// One message's part of the line.
fn one(
    line: &mut [u8],
    at: usize,
    held: &mut u64,
    ids: &mut [u32; 64],
    counts: &mut [u8; 64],
    columns: &mut [u64; 2048],
    names: &mut [u8; 129024],
    message: &[u8],
) -> usize {
    let a = packed_relations::message(held, ids, counts, columns, names, message);
    let b = wire::store::place(line, at, b" |");
    match answered(a) {
        Ok(Some(id)) => {
            let c = wire::store::place(line, b, b" 0");
            let h = *held;
            held_columns(line, c, h, ids, counts, columns, names, id)
        }
        Ok(None) => wire::store::place(line, b, b" 0 -"),
        Err(r) => test_lines::number(line, b, r.number() as u64),
    }
}

// The place after what is left of the line to print, which begins with its kind; none where a message is cut, and nothing is printed. What is told of one
// message is printed before the next, since a line can be longer than its input, and let go where it cannot be.
pub(crate) fn after_messages(stdout: Stdout, line: &mut [u8], input: &[u8]) -> Option<usize> {
    if !is_whole(input) {
        return None;
    }
    let mut held: u64 = 0;
    let mut ids = [0u32; 64];
    let mut counts = [0u8; 64];
    let mut columns = [0u64; 2048];
    let mut names = [0u8; 129024];
    let mut from = 1;
    let mut rest = input;
    while let Some((message, after)) = first_message(rest) {
        let used = one(
            line,
            from,
            &mut held,
            &mut ids,
            &mut counts,
            &mut columns,
            &mut names,
            message,
        );
        let _ = test_lines::print(stdout, line, used);
        from = 0;
        rest = after;
    }
    Some(from)
}
