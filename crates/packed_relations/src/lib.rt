#![tactic(auto)]
// A relation cache with each column in one word: key flag, type, length and place of its name. Document 02, wish 12.
// The memory is lent: how many relations are held, their identifiers, their column counts, a word of each column, and the names. Column c of the
// relation in slot r has number 32 r + c. The names lie without gaps, in the order of these numbers, in a slice of any length.
mod find;
pub mod layout;
mod names;
mod store;
pub mod words;

ghost use Rattle.std.specs.Prelude.{◌≡◌, []};
ghost use Rattle.rows.specs.Rows.{row_said};
ghost use Rattle.wire.specs.Answer.{maybe};
ghost use Rattle.relations.specs.Answers.{answer_by, column_by};
ghost use Rattle.relations.specs.Memory.{count_held};
ghost use Rattle.packed_relations.specs.Packed.{packed, words_of, emptied, message_of, column_told};

use find::Held;
use relations::find::Slots;
use relations::{Column, Refused};
use rows::Row;
use store::Cache;

// No more bytes of the names are read or written.
pub const NAMES: usize = 129024;

// An empty cache. All but the names, which nothing reads, is zero.
pub fn clear(held: &mut u64, ids: &mut [u32; 64], counts: &mut [u8; 64], words: &mut [u64; 2048])
    ensures { packed held.new ids.new counts.new (words_of words.new []) ≡ emptied [] }
{
    *held = 0;
    *ids = [0; 64];
    *counts = [0; 64];
    *words = [0; 2048];
}

// One message. The struct has one lifetime for all that is lent, which `message` cannot name: its parameters have one each.
fn message_in<'a>(
    held: &'a mut u64,
    ids: &'a mut [u32],
    counts: &'a mut [u8],
    words: &'a mut [u64],
    names: &'a mut [u8],
    bytes: &[u8],
) -> Result<Option<Row>, Refused>
    ensures { (answer_by result, packed held.new ids.new counts.new (words_of words.new names.new))
        ≡ message_of (packed held.old ids.old counts.old (words_of words.old names.old))
        (row_said bytes.now) }
{
    let mut cache = Cache {
        held,
        ids,
        counts,
        words,
        names,
    };
    cache.message(bytes)
}

// One message: its answer is what its data say, or a refusal. A Relation that is not refused is held from then on in place of the one with its
// identifier; a refused message leaves the whole memory as it was. A Relation is refused with 4 where the names do not fit.
pub fn message(
    held: &mut u64,
    ids: &mut [u32; 64],
    counts: &mut [u8; 64],
    words: &mut [u64; 2048],
    names: &mut [u8],
    bytes: &[u8],
) -> Result<Option<Row>, Refused>
    ensures { (answer_by result, packed held.new ids.new counts.new (words_of words.new names.new))
        ≡ message_of (packed held.old ids.old counts.old (words_of words.old names.old))
        (row_said bytes.now) }
{
    message_in(held, ids, counts, words, names, bytes)
}

// How many columns a relation has, if it is held.
pub fn columns_held(held: u64, ids: &[u32; 64], counts: &[u8; 64], id: u32) -> Option<usize>
    ensures { maybe result ≡ count_held held ids.now counts.now id }
{
    Slots { held, ids, counts }.count_of(id)
}

// Column `index` of a relation, if it is held and has so many. Of the names the length alone is read.
pub fn held_column(
    held: u64,
    ids: &[u32; 64],
    counts: &[u8; 64],
    words: &[u64; 2048],
    names: &[u8],
    id: u32,
    index: usize,
) -> Option<Column>
    ensures { column_by result
        ≡ column_told (packed held ids.now counts.now (words_of words.now names.now)) id index }
{
    let slots = Slots { held, ids, counts };
    Held {
        slots,
        words,
        names,
    }
    .column_of(id, index)
}
