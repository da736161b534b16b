// Where the names lie: the lengths before a name, summed up, and the bytes and places of those that are moved.
ghost use Rattle.std.specs.Prelude.{◌≡◌, true, ◌+◌, ◌*◌, ◌≤◌, length};
ghost use Rattle.wire.specs.Bytes.{at, put};
ghost use Rattle.relations.specs.Cache.{names_fit};
ghost use Rattle.relations.specs.Memory.{described_from};
ghost use Rattle.packed_relations.specs.Packed.{len_of, lens_from, new_lens, lie_in, word_at, place_words};

use relations::NAME;
use relations::find::element;
use relations::store::set;
use rows::items::description_at;

// How long the name of a word is, 63 at most.
fn len_of(word: u64) -> usize
    ensures { result ≡ len_of word }
{
    let c = column_word::column_in(word);
    (c.name_len as usize).min(NAME)
}

// The lengths of the names of n columns from column `first` on.
pub(crate) fn lens_from(words: &[u64], first: usize, n: usize) -> usize
    requires { first + n ≤ 2048 }
    ensures { (result ≡ lens_from words.now first n) × (result ≤ 63 * n) }
{
    let mut sum: usize = 0;
    for k in 0..n {
        let word = element(words, first + k, 0);
        sum += len_of(word);
    }
    sum
}

// How long names are together: those in slots before one, its own, and those in later slots.
#[derive(Clone, Copy)]
pub(crate) struct Lens {
    pub(crate) before: usize,
    pub(crate) own: usize,
    pub(crate) later: usize,
}

impl Lens {
    // Whether the names lie in so many bytes, and the same with a new length of the slot's own.
    pub(crate) fn lie_in(self, room: usize, new: usize) -> bool
        requires { (self.before + self.own + self.later ≤ 129024) × (new ≤ 2016) }
        ensures { result ≡ lie_in room self.before self.own self.later new }
    {
        if room < self.before + self.own + self.later {
            return false;
        }
        self.before + new + self.later <= room
    }
}

// The lengths of the names of the n descriptions from a place on.
pub(crate) fn new_lens(bytes: &[u8], from: usize, n: usize) -> usize
    requires { (n ≤ 32) × (names_fit (described_from bytes.now n from) ≡ true) }
    ensures { (result ≡ new_lens (described_from bytes.now n from)) × (result ≤ 63 * n) }
{
    let mut sum: usize = 0;
    let mut at = from;
    for _ in 0..n {
        let Ok((description, next)) = description_at(bytes, at) else {
            return sum;
        };
        sum += description.name.len;
        at = next;
    }
    sum
}

// A word with another place.
fn placed_word(word: u64, place: usize) -> u64
    requires { place ≤ 16777216 }
    ensures { result ≡ word_at place word }
{
    let c = column_word::column_in(word);
    column_word::word_of(column_word::Column {
        key: c.key,
        type_oid: c.type_oid,
        name_len: c.name_len,
        name_at: place as u32,
    })
}

// The names of n columns from column `first` on stand from a place on, one after the other. The place behind them.
pub(crate) fn place_words(words: &mut [u64], first: usize, n: usize, place: usize) -> usize
    requires { (first + n ≤ 2048) × (place + 63 * n ≤ 16777216) }
    ensures { (words.new ≡ place_words first n place words.old)
        × (result ≡ place + lens_from words.old first n) × (result ≤ place + 63 * n) }
{
    let mut at = place;
    for k in 0..n {
        let word = element(words, first + k, 0);
        let moved = placed_word(word, at);
        set(words, first + k, moved);
        at += len_of(word);
    }
    at
}

// n bytes are moved down, the first one first.
fn move_down(names: &mut [u8], from: usize, to: usize, n: usize)
    requires { (to ≤ from) × (from + n ≤ length names.old) }
    ensures { names.new ≡ put names.old to (at names.old from n) }
{
    for k in 0..n {
        names[to + k] = names[from + k];
    }
}

// n bytes are moved up, the last one first.
fn move_up(names: &mut [u8], from: usize, to: usize, n: usize)
    requires { (from ≤ to) × (to + n ≤ length names.old) }
    ensures { names.new ≡ put names.old to (at names.old from n) }
{
    for k in (0..n).rev() {
        names[to + k] = names[from + k];
    }
}

// n bytes are moved.
pub(crate) fn move_names(names: &mut [u8], from: usize, to: usize, n: usize)
    requires { (from + n ≤ length names.old) × (to + n ≤ length names.old) }
    ensures { names.new ≡ put names.old to (at names.old from n) }
{
    if from == to {
        return;
    }
    if to < from {
        move_down(names, from, to, n);
        return;
    }
    move_up(names, from, to, n);
}
