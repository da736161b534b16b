// A relation cache, to be measured: a message and a lookup are answered as the exports answer them.
ghost use Rattle.std.specs.Prelude.{◌≡◌};
ghost use Rattle.packed_relations.specs.Packed.{packed, words_of};
ghost use Rattle.packed_relations.specs.Words.{message_call, column_call};

use packed_relations::layout;
use packed_relations::words::{column_call, message_call};

// One message.
#[unsafe(no_mangle)]
pub extern "C" fn bench_cache_message(
    held: &mut u64,
    ids: &mut [u32; layout::CACHE_RELATIONS],
    counts: &mut [u8; layout::CACHE_RELATIONS],
    words: &mut [u64; layout::CACHE_COLUMNS],
    names: &mut [u8],
    data: &[u8],
    row: &mut [u64; rows::layout::ROW_WORDS],
) -> u64
    ensures { ((result, row.new), packed held.new ids.new counts.new (words_of words.new names.new))
        ≡ message_call (packed held.old ids.old counts.old (words_of words.old names.old))
        «data».now }
{
    message_call(held, ids, counts, words, names, data, row)
}

// A column.
#[unsafe(no_mangle)]
pub extern "C" fn bench_cache_column(
    held: u64,
    ids: &[u32; layout::CACHE_RELATIONS],
    counts: &[u8; layout::CACHE_RELATIONS],
    words: &[u64; layout::CACHE_COLUMNS],
    names: &[u8],
    id: u32,
    index: usize,
    column: &mut [u64; layout::CACHE_COLUMN_WORDS],
)
    ensures { column.new
        ≡ column_call held ids.now counts.now words.now names.now id index }
{
    column_call(held, ids, counts, words, names, id, index, column)
}
