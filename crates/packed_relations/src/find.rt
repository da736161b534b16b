// A column, by its word.
ghost use Rattle.std.specs.Prelude.{◌≡◌, Some, ◌+◌, ◌-◌, ◌*◌, ◌≤◌};
ghost use Rattle.std.proofs.Math.Option.{some};
ghost use Rattle.relations.specs.Answers.{column_by};
ghost use Rattle.column_word.specs.Word.{column_in};
ghost use Rattle.packed_relations.specs.Packed.{packed, words_of, told_of, column_told, slot_lens};

use crate::NAMES;
use crate::names::{Lens, lens_from};
use relations::find::{Slots, element};
use relations::{COLUMNS, Column, NAME, RELATIONS};
use rows::Part;

// The column of a word. Its name is a part of so many bytes whatever the word is.
fn told_of(room: usize, word: u64) -> Column
    ensures { column_by (Some result) ≡ some (told_of room (column_in word)) }
{
    let c = column_word::column_in(word);
    let from = (c.name_at as usize).min(room);
    let len = (c.name_len as usize).min(NAME).min(room - from);
    Column {
        name: Part { from, len },
        key: c.key,
        oid: c.type_oid,
    }
}

// A cache that is lent for reading.
#[derive(Clone, Copy)]
pub(crate) struct Held<'a> {
    pub(crate) slots: Slots<'a>,
    pub(crate) words: &'a [u64],
    pub(crate) names: &'a [u8],
}

impl<'a> Held<'a> {
    // Column `index` of a relation.
    pub(crate) fn column_of(self, id: u32, index: usize) -> Option<Column>
        ensures { column_by result
            ≡ column_told (packed self.entry.slots.held self.entry.slots.ids.now self.entry.slots.counts.now
            (words_of self.entry.words.now self.entry.names.now)) id index }
    {
        let slot = self.slots.slot_of(id);
        if RELATIONS <= slot {
            return None;
        }
        let n = self.slots.count_of(id)?;
        if n <= index {
            return None;
        }
        let word = element(self.words, COLUMNS * slot + index, 0);
        Some(told_of(self.names.len().min(NAMES), word))
    }

    // The lengths of the names of the columns in n slots from slot `first` on.
    fn slot_lens(self, first: usize, n: usize) -> usize
        requires { first + n ≤ 64 }
        ensures { (result ≡ slot_lens self.entry.slots.counts.now self.entry.words.now first n) × (result ≤ 2016 * n) }
    {
        let mut sum: usize = 0;
        for k in 0..n {
            let slot = first + k;
            let count = self.slots.count_at(slot);
            sum += lens_from(self.words, COLUMNS * slot, count);
        }
        sum
    }

    // The lengths of the names, where so many slots are held and `next` is the slot after one.
    pub(crate) fn lens(self, slot: usize, next: usize, slots: usize) -> Lens
        requires { (slot ≤ next) × (next ≤ slots) × (slots ≤ 64) }
        ensures { (result.before ≡ slot_lens self.entry.slots.counts.now self.entry.words.now 0 slot)
            × (result.own ≡ slot_lens self.entry.slots.counts.now self.entry.words.now slot (next - slot))
            × (result.later ≡ slot_lens self.entry.slots.counts.now self.entry.words.now next (slots - next))
            × (result.before ≤ 2016 * slot) × (result.before + result.own + result.later ≤ 129024) }
    {
        let before = self.slot_lens(0, slot);
        let own = self.slot_lens(slot, next - slot);
        let later = self.slot_lens(next, slots - next);
        Lens { before, own, later }
    }
}
