// What is answered about rows, as words of 64 bits: a head, and one column, description or identifier with the place of the next one. SCOPE 9.6.
// The words have names in layout.rt.
ghost use Rattle.std.specs.Prelude.{◌≡◌};
ghost use Rattle.wire.specs.Int.{value};
ghost use Rattle.rows.specs.Head.{answer_by, row_head, column_by, description_by, identifier_by, span_of, tuple_of};
ghost use Rattle.rows.specs.Head.{refusal, relation_head, origin_head, truncate_head};
ghost use Rattle.rows.specs.Rows.{which_letter};
ghost use Rattle.rows.specs.Words.{words_by, head_words, row_reply, column_reply, description_reply, identifier_reply};

use crate::{Column, Description, Part, Refusal, Row, Tuple, Which, layout};
use wire::field::of_i64;

// A refusal's number, 0 for none, and the words of a head.
#[derive(Clone, Copy)]
pub struct RowReply {
    pub refusal: u64,
    pub words: [u64; layout::ROW_WORDS],
}

// The place of the next column of a tuple, 0 where it is refused, and the words of this one.
#[derive(Clone, Copy)]
pub struct ColumnReply {
    pub next: u64,
    pub words: [u64; layout::TUPLE_WORDS],
}

// The place after a description of a column, 0 where there is none, and its words.
#[derive(Clone, Copy)]
pub struct DescriptionReply {
    pub next: u64,
    pub words: [u64; layout::DESCRIPTION_WORDS],
}

// The place after a relation's identifier in a Truncate, 0 where there is none, and its words.
#[derive(Clone, Copy)]
pub struct IdentifierReply {
    pub next: u64,
    pub words: [u64; layout::IDENTIFIER_WORDS],
}

// The letter before an old tuple.
fn letter(which: Which) -> u64
    ensures { result ≡ which_letter which }
{
    match which {
        Which::Key => b'K' as u64,
        Which::Old => b'O' as u64,
    }
}

// Two's complement.
fn signed_word(modifier: i32) -> u64
    ensures { result ≡ value 8 modifier }
{
    of_i64(modifier as i64)
}

// The words of a head, in their order.
fn accepted(
    kind: u64,
    id: u64,
    byte: u64,
    items: Tuple,
    old: Tuple,
    namespace: Part,
    name: Part,
) -> RowReply
    ensures { (result.refusal ≡ 0) × (result.words ≡ words_by kind id byte (tuple_of items) (tuple_of old) (span_of namespace) (span_of name)) }
{
    RowReply {
        refusal: 0,
        words: [
            kind,
            id,
            byte,
            items.columns as u64,
            items.from as u64,
            old.columns as u64,
            old.from as u64,
            namespace.from as u64,
            namespace.len as u64,
            name.from as u64,
            name.len as u64,
        ],
    }
}

// A head without tuples.
fn named(kind: u64, id: u64, namespace: Part, name: Part) -> RowReply
    ensures { (result.refusal ≡ 0) × (result.words ≡ words_by kind id 0 (0, 0) (0, 0) (span_of namespace) (span_of name)) }
{
    let none = Tuple {
        columns: 0,
        from: 0,
    };
    accepted(kind, id, 0, none, none, namespace, name)
}

// A head without names.
fn unnamed(kind: u64, id: u64, byte: u64, items: Tuple, old: Tuple) -> RowReply
    ensures { (result.refusal ≡ 0) × (result.words ≡ words_by kind id byte (tuple_of items) (tuple_of old) (0, 0) (0, 0)) }
{
    let no_name = Part { from: 0, len: 0 };
    accepted(kind, id, byte, items, old, no_name, no_name)
}

fn relation_reply(
    id: u32,
    namespace: Part,
    name: Part,
    identity: u8,
    columns: usize,
    from: usize,
) -> RowReply
    ensures { (result.refusal ≡ 0) × (result.words ≡ head_words (relation_head id (span_of namespace) (span_of name) identity columns from)) }
{
    let items = Tuple { columns, from };
    let none = Tuple {
        columns: 0,
        from: 0,
    };
    let byte = identity as u64;
    accepted(
        layout::ROW_RELATION,
        id as u64,
        byte,
        items,
        none,
        namespace,
        name,
    )
}

fn origin_reply(position: u64, name: Part) -> RowReply
    ensures { (result.refusal ≡ 0) × (result.words ≡ head_words (origin_head position (span_of name))) }
{
    let no_name = Part { from: 0, len: 0 };
    named(layout::ROW_ORIGIN, position, no_name, name)
}

// A head without names and without an old tuple.
fn listed(kind: u64, id: u64, byte: u64, items: Tuple) -> RowReply
    ensures { (result.refusal ≡ 0) × (result.words ≡ words_by kind id byte (tuple_of items) (0, 0) (0, 0) (0, 0)) }
{
    let none = Tuple {
        columns: 0,
        from: 0,
    };
    unnamed(kind, id, byte, items, none)
}

// A head without names and without a new tuple.
fn delete_reply(relation: u32, byte: u64, old: Tuple) -> RowReply
    ensures { (result.refusal ≡ 0) × (result.words ≡ words_by 6 relation byte (0, 0) (tuple_of old) (0, 0) (0, 0)) }
{
    let none = Tuple {
        columns: 0,
        from: 0,
    };
    unnamed(layout::ROW_DELETE, relation as u64, byte, none, old)
}

fn truncate_reply(relations: usize, options: u8, from: usize) -> RowReply
    ensures { (result.refusal ≡ 0) × (result.words ≡ head_words (truncate_head relations options from)) }
{
    let items = Tuple {
        columns: relations,
        from,
    };
    listed(layout::ROW_TRUNCATE, 0, options as u64, items)
}

// A refusal, or no row where its number is 0: all words are 0.
pub fn no_head(number: u64) -> RowReply
    ensures { (result.refusal, result.words) ≡ row_reply (refusal number) }
{
    RowReply {
        refusal: number,
        words: [layout::ROW_NONE, 0, 0, 0, 0, 0, 0, 0, 0, 0, 0],
    }
}

// The words of a row's head.
fn head_reply(row: Row) -> RowReply
    ensures { (result.refusal ≡ 0) × (result.words ≡ head_words (row_head row)) }
{
    match row {
        Row::Relation {
            id,
            namespace,
            name,
            identity,
            columns,
            from,
        } => relation_reply(id, namespace, name, identity, columns, from),
        Row::Type {
            id,
            namespace,
            name,
        } => named(layout::ROW_TYPE, id as u64, namespace, name),
        Row::Origin { position, name } => origin_reply(position, name),
        Row::Insert { relation, new } => listed(layout::ROW_INSERT, relation as u64, 0, new),
        Row::Update { relation, new } => listed(layout::ROW_UPDATE, relation as u64, 0, new),
        Row::UpdateFrom {
            relation,
            which,
            old,
            new,
        } => unnamed(layout::ROW_UPDATE, relation as u64, letter(which), new, old),
        Row::Delete {
            relation,
            which,
            old,
        } => delete_reply(relation, letter(which), old),
        Row::Truncate {
            relations,
            options,
            from,
        } => truncate_reply(relations, options, from),
    }
}

pub fn row_reply(row: Result<Option<Row>, Refusal>) -> RowReply
    ensures { (result.refusal, result.words) ≡ row_reply (answer_by row) }
{
    match row {
        Ok(Some(row)) => head_reply(row),
        Ok(None) => no_head(0),
        Err(r) => no_head(r.number() as u64),
    }
}

pub fn column_reply(column: Result<(Column, usize), Refusal>) -> ColumnReply
    ensures { (result.next, result.words) ≡ column_reply (column_by column) }
{
    match column {
        Ok((Column::Null, next)) => ColumnReply {
            next: next as u64,
            words: [0, layout::TUPLE_NULL, 0, 0],
        },
        Ok((Column::Unchanged, next)) => ColumnReply {
            next: next as u64,
            words: [0, layout::TUPLE_UNCHANGED, 0, 0],
        },
        Ok((Column::Text(part), next)) => ColumnReply {
            next: next as u64,
            words: [0, layout::TUPLE_TEXT, part.from as u64, part.len as u64],
        },
        Ok((Column::Binary(part), next)) => ColumnReply {
            next: next as u64,
            words: [0, layout::TUPLE_BINARY, part.from as u64, part.len as u64],
        },
        Err(r) => ColumnReply {
            next: 0,
            words: [r.number() as u64, layout::TUPLE_NONE, 0, 0],
        },
    }
}

pub fn description_reply(description: Result<(Description, usize), Refusal>) -> DescriptionReply
    ensures { (result.next, result.words) ≡ description_reply (description_by description) }
{
    match description {
        Ok((d, next)) => DescriptionReply {
            next: next as u64,
            words: [
                0,
                d.flags as u64,
                d.name.from as u64,
                d.name.len as u64,
                d.oid as u64,
                signed_word(d.modifier),
            ],
        },
        Err(r) => DescriptionReply {
            next: 0,
            words: [r.number() as u64, 0, 0, 0, 0, 0],
        },
    }
}

pub fn identifier_reply(identifier: Result<(u32, usize), Refusal>) -> IdentifierReply
    ensures { (result.next, result.words) ≡ identifier_reply (identifier_by identifier) }
{
    match identifier {
        Ok((id, next)) => IdentifierReply {
            next: next as u64,
            words: [0, id as u64],
        },
        Err(r) => IdentifierReply {
            next: 0,
            words: [r.number() as u64, 0],
        },
    }
}
