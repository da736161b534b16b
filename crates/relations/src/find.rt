// Where a relation is held, and whether rows match it.
ghost use Rattle.std.specs.Prelude.{◌≡◌, ◌==◌, Ok, get_or, position, take};
ghost use Rattle.relations.specs.Memory.{place_of, count_at, count_held};
ghost use Rattle.relations.specs.Cache.{matches, first_of, is_key};
ghost use Rattle.relations.specs.Answers.{verdict_by, head_judged};
ghost use Rattle.rows.specs.Head.{answer_by as row_by};
ghost use Rattle.wire.specs.Answer.{maybe};

use crate::Refusal;
use rows::Row;

// The element at a place, or what stands for it outside.
pub fn element<T: Copy>(s: &[T], i: usize, outside: T) -> T
    ensures { result ≡ get_or s.now i outside }
{
    s.get(i).copied().unwrap_or(outside)
}

// The first place of an identifier among these.
fn place_among(ids: &[u32], id: u32) -> Option<usize>
    ensures { result ≡ position (λ x. x == id) ids.now }
{
    ids.iter().position(|x| *x == id)
}

// A tuple has as many columns as its relation.
fn matched(count: Option<usize>, columns: usize) -> Result<(), Refusal>
    ensures { verdict_by result ≡ matches (maybe count) columns }
{
    match count {
        Some(n) if n == columns => Ok(()),
        _ => Err(Refusal::Unmatched),
    }
}

// Both tuples of an Update are matched.
fn both_matched(count: Option<usize>, old: usize, new: usize) -> Result<(), Refusal>
    ensures { verdict_by result ≡ first_of (matches (maybe count) old) (matches (maybe count) new) }
{
    matched(count, old)?;
    matched(count, new)
}

// The slots of a lent memory: how many are held, their identifiers, and how many columns each has.
#[derive(Clone, Copy)]
pub struct Slots<'a> {
    pub held: u64,
    pub ids: &'a [u32],
    pub counts: &'a [u8],
}

impl<'a> Slots<'a> {
    // The first place of an identifier among those held; where it is not held, how many are.
    pub fn slot_of(self, id: u32) -> usize
        ensures { result ≡ place_of id (take self.entry.held self.entry.ids.now) }
    {
        let n = (self.held as usize).min(self.ids.len());
        place_among(&self.ids[..n], id).unwrap_or(n)
    }

    // How many columns the relation in a slot has; a count above 32 counts as 32.
    pub fn count_at(self, slot: usize) -> usize
        ensures { result ≡ count_at self.entry.counts.now slot }
    {
        let count = element(self.counts, slot, 0);
        (count as usize).min(32)
    }

    // How many columns the relation has, if it is held.
    pub fn count_of(self, id: u32) -> Option<usize>
        ensures { maybe result ≡ count_held self.entry.held self.entry.ids.now self.entry.counts.now id }
    {
        let n = (self.held as usize).min(self.ids.len());
        let slot = self.slot_of(id);
        if slot < n {
            return Some(self.count_at(slot));
        }
        None
    }

    // The same for rows.
    fn columns(self, id: u32) -> Option<usize>
        ensures { maybe result ≡ count_held self.entry.held self.entry.ids.now self.entry.counts.now id }
    {
        columns_of(self.held, self.ids, self.counts, id)
    }

    // The tuples of a row are matched with its relation.
    pub fn judge(self, row: Option<Row>) -> Result<(), Refusal>
        ensures { verdict_by result ≡ head_judged (λ id. count_held self.entry.held self.entry.ids.now self.entry.counts.now id) (row_by (Ok row)) }
    {
        match row {
            Some(Row::Insert { relation, new }) => matched(self.columns(relation), new.columns),
            Some(Row::Update { relation, new }) => matched(self.columns(relation), new.columns),
            Some(
                Row::UpdateFrom {
                    relation,
                    old,
                    new,
                    ..
                },
            ) => both_matched(self.columns(relation), old.columns, new.columns),
            Some(Row::Delete { relation, old, .. }) => {
                matched(self.columns(relation), old.columns)
            }
            _ => Ok(()),
        }
    }
}

// How many columns a relation has, if it is held. Out of line, and with its parts in registers: within the function of a whole message each turn of the
// search would set that function's numbers anew.
#[inline(never)]
fn columns_of(held: u64, ids: &[u32], counts: &[u8], id: u32) -> Option<usize>
    ensures { maybe result ≡ count_held held ids.now counts.now id }
{
    Slots { held, ids, counts }.count_of(id)
}

// Whether a flag byte is that of a column of the key: its lowest bit.
pub fn is_key(flags: u8) -> bool
    ensures { result ≡ is_key flags }
{
    flags % 2 == 1
}
