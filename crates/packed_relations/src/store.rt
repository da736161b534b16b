// A Relation's columns, stored as words.
ghost use Rattle.std.specs.Prelude.{◌≡◌, true, ◌+◌, ◌*◌, ◌<◌, ◌≤◌, length};
ghost use Rattle.rows.specs.Rows.{row_said};
ghost use Rattle.wire.specs.Bytes.{at};
ghost use Rattle.wire.specs.Answer.{maybe, value_of};
ghost use Rattle.relations.specs.Cache.{names_fit, fits, is_key};
ghost use Rattle.relations.specs.Memory.{described_from};
ghost use Rattle.relations.specs.Answers.{answer_by, verdict_by};
ghost use Rattle.column_word.specs.Word.{word_of};
ghost use Rattle.packed_relations.specs.Lent.{words_in, packed_in, LendsSame, KeepsSlots};
ghost use Rattle.packed_relations.specs.Packed.{word_column, place_slots, made_room, store_word, store_words, kept, message_of};

use crate::NAMES;
use crate::find::Held;
use crate::names::{move_names, new_lens, place_words};
use relations::find::{Slots, is_key};
use relations::store::{names_fit, set};
use relations::{COLUMNS, RELATIONS, Refusal, Refused, relation_of};
use rows::items::description_at;
use rows::{Description, Row};

// Whether the n descriptions from a place on are 32 at most, with names of 63 bytes at most.
fn fit(bytes: &[u8], from: usize, n: usize) -> bool
    requires { length (described_from bytes.now n from) ≡ n }
    ensures { result ≡ fits (described_from bytes.now n from) }
{
    if COLUMNS < n {
        return false;
    }
    names_fit(bytes, from, n)
}

// The word of a column with a name of so many bytes at a place.
fn word_for(flag: u8, oid: u32, len: usize, place: usize) -> u64
    requires { (len ≤ 63) × (place ≤ 16777216) }
    ensures { result ≡ word_of (word_column (is_key flag) oid len place) }
{
    let key = is_key(flag);
    column_word::word_of(column_word::Column {
        key,
        type_oid: oid,
        name_len: len as u32,
        name_at: place as u32,
    })
}

// A cache that is lent to be changed.
#[derive(Drop)]
pub(crate) struct Cache<'a> {
    pub(crate) held: &'a mut u64,
    pub(crate) ids: &'a mut [u32],
    pub(crate) counts: &'a mut [u8],
    pub(crate) words: &'a mut [u64],
    pub(crate) names: &'a mut [u8],
}

impl<'a> Cache<'a> {
    // The same memory, for reading.
    fn read(&self) -> Held<'_>
        ensures { (result.slots.held ≡ self.now.held.now) × (result.slots.ids.now ≡ self.now.ids.now) × (result.slots.counts.now ≡ self.now.counts.now)
            × (result.words.now ≡ self.now.words.now) × (result.names.now ≡ self.now.names.now) }
    {
        let slots = Slots {
            held: *self.held,
            ids: self.ids,
            counts: self.counts,
        };
        Held {
            slots,
            words: self.words,
            names: self.names,
        }
    }

    // The names of the columns in n slots from slot `first` on stand from a place on, one after the other.
    fn place_slots(&mut self, first: usize, n: usize, place: usize)
        requires { (first + n ≤ 64) × (place + 2016 * n ≤ 16777216) }
        ensures value { self.new.words.now ≡ place_slots self.old.counts.now first n place self.old.words.now }
        ensures rest { KeepsSlots self.old self.new × (self.new.names.now ≡ self.old.names.now) }
        ensures same { LendsSame self.old self.new }
    {
        let mut at = place;
        for k in 0..n {
            let slot = first + k;
            let count = self.read().slots.count_at(slot);
            at = place_words(self.words, COLUMNS * slot, count, at);
        }
    }

    // Column i is stored, with a name that stands in the data, and from a place on in the names.
    fn store_word(&mut self, i: usize, place: usize, bytes: &[u8], d: Description)
        requires { (place ≤ 16777216) × (d.name.from + d.name.len ≤ length bytes.now) × (d.name.len ≤ 63) }
        ensures value { words_in self.new
            ≡ store_word i place d.flags (at bytes.now d.name.from d.name.len) d.oid (words_in self.old) }
        ensures rest { KeepsSlots self.old self.new }
        ensures same { LendsSame self.old self.new }
    {
        let word = word_for(d.flags, d.oid, d.name.len, place);
        set(self.words, i, word);
        let from = d.name.from;
        let end = from + d.name.len;
        wire::store::place(self.names, place, &bytes[from..end]);
    }

    // The n descriptions from a place on are stored, the first as column `first`, with their names from `place` on.
    fn store_words(&mut self, first: usize, place: usize, bytes: &[u8], from: usize, n: usize)
        requires { (first + n ≤ 2048) × (place + 63 * n ≤ 16777216) × (names_fit (described_from bytes.now n from) ≡ true) }
        ensures value { words_in self.new
            ≡ store_words first place (described_from bytes.now n from) (words_in self.old) }
        ensures rest { KeepsSlots self.old self.new }
        ensures same { LendsSame self.old self.new }
    {
        let mut to = place;
        let mut at = from;
        for k in 0..n {
            let Ok((description, next)) = description_at(bytes, at) else {
                return;
            };
            self.store_word(first + k, to, bytes, description);
            to += description.name.len;
            at = next;
        }
    }

    // The names of later slots make room for so many bytes in a slot, where there are so many; else nothing is altered. Where its names begin.
    fn make_room(&mut self, slot: usize, new: usize) -> Option<usize>
        requires { (slot < 64) × (slot ≤ self.old.held.now) × (new ≤ 2016) }
        ensures value { (maybe result, words_in self.new) ≡ made_room (packed_in self.old) slot new }
        ensures most { value_of result ≤ 129024 }
        ensures rest { KeepsSlots self.old self.new }
        ensures same { LendsSame self.old self.new }
    {
        let slots = (*self.held as usize).min(RELATIONS);
        let next = (slot + 1).min(slots);
        let lens = self.read().lens(slot, next, slots);
        let room = self.names.len().min(NAMES);
        if !lens.lie_in(room, new) {
            return None;
        }
        let place = lens.before;
        move_names(self.names, place + lens.own, place + new, lens.later);
        self.place_slots(next, slots - next, place + new);
        Some(place)
    }

    // A Relation is stored, or refused.
    pub(crate) fn keep(
        &mut self,
        bytes: &[u8],
        id: u32,
        n: usize,
        from: usize,
    ) -> Result<(), Refusal>
        requires { length (described_from bytes.now n from) ≡ n }
        ensures value { (verdict_by result, packed_in self.new) ≡ kept (packed_in self.old) id (described_from bytes.now n from) }
        ensures same { LendsSame self.old self.new }
    {
        let slot = self.read().slots.slot_of(id);
        if RELATIONS <= slot {
            return Err(Refusal::CacheFull);
        }
        if !fit(bytes, from, n) {
            return Err(Refusal::TooLarge);
        }
        let new = new_lens(bytes, from, n);
        let Some(place) = self.make_room(slot, new) else {
            return Err(Refusal::NoRoom);
        };
        self.store_words(COLUMNS * slot, place, bytes, from, n);
        set(self.ids, slot, id);
        set(self.counts, slot, n as u8);
        *self.held = (*self.held).max(slot as u64 + 1);
        Ok(())
    }

    // One message.
    pub(crate) fn message(&mut self, bytes: &[u8]) -> Result<Option<Row>, Refused>
        ensures value { (answer_by result, packed_in self.new) ≡ message_of (packed_in self.old) (row_said bytes.now) }
        ensures same { LendsSame self.old self.new }
    {
        let row = rows::read_row(bytes)?;
        let Some(relation) = relation_of(row) else {
            self.read().slots.judge(row)?;
            return Ok(row);
        };
        self.keep(bytes, relation.id, relation.columns, relation.from)?;
        Ok(row)
    }
}
