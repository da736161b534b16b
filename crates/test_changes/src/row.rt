// A row's line: its head, and its columns, descriptions or identifiers read one by one from the places that the head names.
use crate::words;
use lsn::Lsn;
use rows::{Part, Refusal, Row, Tuple, Which};

// A tuple: its column count, and a word for each column.
fn tuple(line: &mut [u8], from: usize, input: &[u8], t: Tuple) -> usize {
    let n = t.columns;
    let mut at = test_lines::number(line, from, n as u64);
    let mut place = t.from;
    for _ in 0..n {
        let c = rows::items::column_at(input, place);
        at = words::column(line, at, input, c);
        place = words::after(c, place);
    }
    at
}

// n descriptions from a place on.
fn descriptions(line: &mut [u8], from: usize, input: &[u8], n: usize, first: usize) -> usize {
    let mut at = test_lines::number(line, from, n as u64);
    let mut place = first;
    for _ in 0..n {
        let d = rows::items::description_at(input, place);
        at = words::description(line, at, input, d);
        place = words::after(d, place);
    }
    at
}

// n identifiers from a place on.
fn identifiers(line: &mut [u8], from: usize, input: &[u8], n: usize, first: usize) -> usize {
    let mut at = from;
    let mut place = first;
    for _ in 0..n {
        let i = rows::items::identifier_at(input, place);
        at = words::identifier(line, at, i);
        place = words::after(i, place);
    }
    at
}

// A letter and an identifier.
fn begun(line: &mut [u8], b: u8, id: u32) -> usize {
    let a = wire::store::place(line, 1, b" 0");
    let c = words::letter(line, a, b);
    test_lines::number(line, c, id as u64)
}

// A namespace and a name.
fn two_names(line: &mut [u8], at: usize, input: &[u8], p: Part, q: Part) -> usize {
    let a = words::name(line, at, input, p);
    words::name(line, a, input, q)
}

// A Relation's replica identity and its columns.
fn relation(
    line: &mut [u8],
    at: usize,
    input: &[u8],
    identity: u8,
    n: usize,
    from: usize,
) -> usize {
    let a = test_lines::number(line, at, identity as u64);
    descriptions(line, a, input, n, from)
}

// A position and a name.
fn origin(line: &mut [u8], input: &[u8], position: u64, name: Part) -> usize {
    let a = wire::store::place(line, 1, b" 0 O");
    let b = test_lines::position(line, a, Lsn(position));
    words::name(line, b, input, name)
}

// The new tuple with its letter.
fn new(line: &mut [u8], at: usize, input: &[u8], t: Tuple) -> usize {
    let a = words::letter(line, at, b'N');
    tuple(line, a, input, t)
}

// The key or the old tuple with its letter.
fn old(line: &mut [u8], at: usize, input: &[u8], which: Which, t: Tuple) -> usize {
    match which {
        Which::Key => {
            let a = words::letter(line, at, b'K');
            tuple(line, a, input, t)
        }
        Which::Old => {
            let b = words::letter(line, at, b'O');
            tuple(line, b, input, t)
        }
    }
}

// How many relations, the option bits, and the relations.
fn truncate(line: &mut [u8], input: &[u8], n: usize, options: u8, from: usize) -> usize {
    let a = wire::store::place(line, 1, b" 0 T");
    let b = test_lines::number(line, a, n as u64);
    let c = test_lines::number(line, b, options as u64);
    identifiers(line, c, input, n, from)
}

// Rows that describe.
fn described(line: &mut [u8], input: &[u8], r: Result<Option<Row>, Refusal>) -> usize {
    match r {
        Ok(
            Some(
                Row::Relation {
                    id,
                    namespace,
                    name,
                    identity,
                    columns,
                    from,
                },
            ),
        ) => {
            let a = begun(line, b'R', id);
            let b = two_names(line, a, input, namespace, name);
            relation(line, b, input, identity, columns, from)
        }
        Ok(
            Some(
                Row::Type {
                    id,
                    namespace,
                    name,
                },
            ),
        ) => {
            let c = begun(line, b'Y', id);
            two_names(line, c, input, namespace, name)
        }
        Ok(Some(Row::Origin { position, name })) => origin(line, input, position, name),
        Ok(
            Some(
                Row::Truncate {
                    relations,
                    options,
                    from,
                },
            ),
        ) => truncate(line, input, relations, options, from),
        Err(r) => test_lines::number(line, 1, r.number() as u64),
        _ => wire::store::place(line, 1, b" 0 n"),
    }
}

// The place after the fields of the line, which begin after the kind.
pub(crate) fn after_fields(line: &mut [u8], input: &[u8]) -> usize {
    let r = rows::read_row(input);
    match r {
        Ok(Some(Row::Insert { relation, new: t })) => {
            let a = begun(line, b'I', relation);
            new(line, a, input, t)
        }
        Ok(Some(Row::Update { relation, new: t })) => {
            let b = begun(line, b'U', relation);
            new(line, b, input, t)
        }
        Ok(
            Some(
                Row::UpdateFrom {
                    relation,
                    which,
                    old: o,
                    new: t,
                },
            ),
        ) => {
            let c = begun(line, b'U', relation);
            let d = old(line, c, input, which, o);
            new(line, d, input, t)
        }
        Ok(
            Some(
                Row::Delete {
                    relation,
                    which,
                    old: o,
                },
            ),
        ) => {
            let e = begun(line, b'D', relation);
            old(line, e, input, which, o)
        }
        _ => described(line, input, r),
    }
}
