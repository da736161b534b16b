// A relation cache for a host: what the Relation messages of a stream said of their columns, and rows matched with it. The memory is lent, and any
// content of it is some cache. SCOPE 9.10, 17. Refused, the memory is as it was and all words are 0.
ghost use Rattle.std.specs.Prelude.{◌≡◌, []};
ghost use Rattle.packed_relations.specs.Packed.{packed, words_of};
ghost use Rattle.packed_relations.specs.Words.{clear_call, message_call, count_call, column_call};

use packed_relations::layout;
use packed_relations::words::{column_call, count_reply, message_call};

// ---- a relation cache: what the Relation messages of a stream said of their columns, and rows matched with it
//
// The memory is lent in five parts: how many relations are held (64 bits); of each slot its relation's identifier (32 bits) and how many columns that
// has (8 bits); a word of each column (64 bits); and the bytes of the names. Column c of the relation in slot r has number 32 r + c. A word has, from
// its most significant bit on, whether the column belongs to the key (1 bit), its type (32), its name's length (7) and its name's place in names (24).
// The names lie without gaps, in the order of the columns' numbers, so as many bytes suffice as the names have that are held: for names of at most L
// bytes, L for each column, and 63 × 2,048 = 129,024 always; bytes past these are neither read nor written. Every call gets the memory as the last one
// left it. Any content of it is some cache: a call with it has one stated outcome, whatever the bytes are; a name that a word places outside of names
// ends with them.

// An empty cache: every byte of what is lent is 0. The names are not lent: nothing of them is read before it is written.
#[unsafe(no_mangle)]
pub extern "C" fn rufflesquash_cache_clear(
    held: &mut u64,
    ids: &mut [u32; layout::CACHE_RELATIONS],
    counts: &mut [u8; layout::CACHE_RELATIONS],
    words: &mut [u64; layout::CACHE_COLUMNS],
)
    ensures { packed held.new ids.new counts.new (words_of words.new []) ≡ clear_call }
{
    packed_relations::clear(held, ids, counts, words)
}

// One message: the row that its data hold, as `rufflesquash_row` answers it. A Relation is held from then on, in place of an earlier one with its
// identifier: the names of later slots are moved. Answers the refusal (26 to 30, 4); refused, the memory is as it was and all words are 0.
//
// - 26, 27: those of `rufflesquash_row`.
// - 28: a Relation, where 64 others are held.
// - 29: a Relation with more than 32 columns or with a column's name of more than 63 bytes. The former description of the relation stays, and rows
//   with the old number of columns are read under the old names.
// - 30: an Insert, Update or Delete whose relation is not held or has another number of columns than one of its tuples.
// - 4: a Relation, where the names of those that are held, or of those that would be, are longer than names. It is told after 26 to 29.
#[unsafe(no_mangle)]
pub extern "C" fn rufflesquash_cache_message(
    held: &mut u64,
    ids: &mut [u32; layout::CACHE_RELATIONS],
    counts: &mut [u8; layout::CACHE_RELATIONS],
    words: &mut [u64; layout::CACHE_COLUMNS],
    names: &mut [u8],
    data: &[u8],
    row: &mut [u64; rows::layout::ROW_WORDS],
) -> u64
    ensures { (
      (result, row.new),
      packed held.new ids.new counts.new (words_of words.new names.new),
    )
        ≡ message_call (packed held.old ids.old counts.old (words_of words.old names.old))
        «data».now }
{
    message_call(held, ids, counts, words, names, data, row)
}

// Whether a relation is held, 1 or 0, and how many columns it has.
#[unsafe(no_mangle)]
pub extern "C" fn rufflesquash_cache_count(
    held: u64,
    ids: &[u32; layout::CACHE_RELATIONS],
    counts: &[u8; layout::CACHE_RELATIONS],
    id: u32,
    columns: &mut u64,
) -> u64
    ensures { (result, columns.new) ≡ count_call held ids.now counts.now id }
{
    let reply = count_reply(packed_relations::columns_held(held, ids, counts, id));
    *columns = reply.columns;
    reply.held
}

// A column of a relation, from 0. All words are 0 where the relation is not held or has no such column. Of names the length alone is read.
#[unsafe(no_mangle)]
pub extern "C" fn rufflesquash_cache_column(
    held: u64,
    ids: &[u32; layout::CACHE_RELATIONS],
    counts: &[u8; layout::CACHE_RELATIONS],
    words: &[u64; layout::CACHE_COLUMNS],
    names: &[u8],
    id: u32,
    index: usize,
    column: &mut [u64; layout::CACHE_COLUMN_WORDS],
)
    ensures { column.new
        ≡ column_call held ids.now counts.now words.now names.now id index }
{
    column_call(held, ids, counts, words, names, id, index, column)
}
