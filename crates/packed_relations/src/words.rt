// What a relation cache answers, as words of 64 bits. SCOPE 9.10. The words have names in layout.rt.
ghost use Rattle.std.specs.Prelude.{◌≡◌};
ghost use Rattle.rows.specs.Words.{row_reply};
ghost use Rattle.wire.specs.Answer.{maybe};
ghost use Rattle.relations.specs.Answers.{answer_by, column_by};
ghost use Rattle.packed_relations.specs.Packed.{packed, words_of};
ghost use Rattle.packed_relations.specs.Words.{count_reply, column_words, message_call, column_call};

use crate::{held_column, layout, message};
use relations::{Column, Refused};
use rows::Row;
use rows::words::{RowReply, no_head, row_reply};
use wire::word::flag;

// Whether a relation is held, 1 or 0, and how many columns it has.
#[derive(Clone, Copy)]
pub struct CountReply {
    pub held: u64,
    pub columns: u64,
}

// A message's answer: the words of a row's head, or the number of a refusal.
pub fn answer_reply(answer: Result<Option<Row>, Refused>) -> RowReply
    ensures { (result.refusal, result.words) ≡ row_reply (answer_by answer) }
{
    match answer {
        Ok(row) => row_reply(Ok(row)),
        Err(r) => no_head(r.number() as u64),
    }
}

pub fn count_reply(count: Option<usize>) -> CountReply
    ensures { (result.held, result.columns) ≡ count_reply (maybe count) }
{
    match count {
        Some(n) => CountReply {
            held: 1,
            columns: n as u64,
        },
        None => CountReply {
            held: 0,
            columns: 0,
        },
    }
}

pub fn column_words(column: Option<Column>) -> [u64; layout::CACHE_COLUMN_WORDS]
    ensures { result ≡ column_words (column_by column) }
{
    match column {
        Some(c) => [
            1,
            c.name.from as u64,
            c.name.len as u64,
            flag(c.key),
            c.oid as u64,
        ],
        None => [0, 0, 0, 0, 0],
    }
}

// One message, and the words of its answer. Answers the refusal's number, 0 for none.
pub fn message_call(
    held: &mut u64,
    ids: &mut [u32; layout::CACHE_RELATIONS],
    counts: &mut [u8; layout::CACHE_RELATIONS],
    words: &mut [u64; layout::CACHE_COLUMNS],
    names: &mut [u8],
    bytes: &[u8],
    row: &mut [u64; rows::layout::ROW_WORDS],
) -> u64
    ensures { ((result, row.new), packed held.new ids.new counts.new (words_of words.new names.new))
        ≡ message_call (packed held.old ids.old counts.old (words_of words.old names.old))
        bytes.now }
{
    let answer = message(held, ids, counts, words, names, bytes);
    let reply = answer_reply(answer);
    let head = reply.words;
    *row = head;
    reply.refusal
}

// The words of column `index` of a relation.
pub fn column_call(
    held: u64,
    ids: &[u32; layout::CACHE_RELATIONS],
    counts: &[u8; layout::CACHE_RELATIONS],
    words: &[u64; layout::CACHE_COLUMNS],
    names: &[u8],
    id: u32,
    index: usize,
    column: &mut [u64; layout::CACHE_COLUMN_WORDS],
)
    ensures { column.new
        ≡ column_call held ids.now counts.now words.now names.now id index }
{
    let told = held_column(held, ids, counts, words, names, id, index);
    *column = column_words(told);
}
