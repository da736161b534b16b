#![tactic(auto)]
// What may be reported of each file: a ledger is told the events that a run hands on and what is done, and answers the position before the first entry
// that is not done. It is a value; its ring of entries is lent, three words an entry, in memory of any length.
ghost use Rattle.std.specs.Prelude.{◌≡◌, ◌<◌};
ghost use Rattle.error.specs.Refusal.{kind_number};
ghost use Rattle.ledger.specs.Ledger.{ledger_number, ledger_kind, cap_of, next_of, entry_at, entry_in, bit_for, larger, file_done, stable_of, undone_in};
ghost use Rattle.ledger.specs.Ledger.{undone_some, with_ring, settled_of, fitted_of, first_of, stream_of, slot_of};
ghost use Rattle.ledger.specs.Ledger.{answer_by, answered, refused_answer, with_entry, with_transaction, with_seen, entry_told, commit_touches, kind_told};
ghost use Rattle.ledger.specs.Ledger.{raised_in, all_raised, done_refusal, answer_from, tell_of, done_of, all_done_of, position_by, answer_of, room_of};

use error::Kind;
use progress::files::{FileRefusal, LAST_FILE};

// The kinds of events, as the words of an answer have them (SCOPE 9.2).
pub const KEEP_ALIVE: u64 = 1;

pub const BEGIN: u64 = 2;

pub const COMMIT: u64 = 3;

pub const MESSAGE: u64 = 4;

// The bits of all four files.
pub const ALL_FILES: u64 = 15;

// What a ledger holds beside its ring. The refusal is a number, since any words are those of some ledger: the theorems `OneCall` and `Asked` speak of every
// number.
#[derive(Clone, Copy)]
pub struct Ledger {
    pub start: u64,
    pub seen: u64, // the largest end of an entry, or wal_end of a keepalive outside a transaction, in this stream
    pub zero: u64, // to which position each file is done
    pub one: u64,
    pub two: u64,
    pub three: u64,
    pub largest: u64, // the largest end of an entry, in all streams
    pub opened: bool, // whether a transaction is open
    pub touched: u64, // the files that the rows since the last Begin touch
    pub refusal: u64, // the number with which an event of this stream was refused, or 0
    pub front: usize, // the first entry's slot in the ring
    pub count: usize,
}

// An entry: its end, the stable position before it, the files that it touches.
#[derive(Clone, Copy)]
pub struct Entry {
    pub end: u64,
    pub before: u64,
    pub touched: u64,
}

// Why a call is refused.
#[derive(Clone, Copy)]
pub enum LedgerRefusal {
    EndNotAbove, // an entry's end is not above what was told before it
    AboveHandedOn, // what is done lies above every entry told
    NoRoom, // the ring is full
}

// The ledger after a call, and the refusal's number, 0 for none: a number, since a stream's mark is answered whatever number it is.
#[derive(Clone, Copy)]
pub struct Answer {
    pub ledger: Ledger,
    pub refusal: u64,
}

fn larger(a: u64, b: u64) -> u64
    ensures { result ≡ larger a b }
{
    a.max(b)
}

// How many entries a ring of so many words holds.
fn capacity(words: usize) -> usize
    ensures { result ≡ cap_of words }
{
    words / 3
}

// The slot after one.
fn next(capacity: usize, slot: usize) -> usize
    ensures { result ≡ next_of capacity slot }
{
    if capacity <= slot {
        return 0;
    }
    let after = slot + 1;
    if after < capacity {
        return after;
    }
    0
}

// The slot so many after one.
fn slot_after(capacity: usize, front: usize, count: usize) -> usize
    ensures { result ≡ slot_of capacity front count }
{
    if capacity <= front {
        return 0;
    }
    let left = capacity - front;
    if count < left {
        return front + count;
    }
    count - left
}

// The files that a Commit touches: all four where there is no list.
fn commit_touches(listed: usize, bits: u64) -> u64
    ensures { result ≡ commit_touches listed bits }
{
    if listed == 0 { ALL_FILES } else { bits }
}

// What a slot holds; outside the ring there is nothing.
fn entry_at(ring: &[u64], slot: usize) -> Entry
    ensures { result ≡ entry_at ring.now slot }
{
    if ring.len() / 3 <= slot {
        return Entry {
            end: 0,
            before: 0,
            touched: 0,
        };
    }
    Entry {
        end: ring[3 * slot],
        before: ring[3 * slot + 1],
        touched: ring[3 * slot + 2],
    }
}

// An entry into a slot; outside the ring nothing is written.
fn set_entry(ring: &mut [u64], slot: usize, entry: Entry)
    ensures { ring.new ≡ entry_in ring.old slot entry }
{
    if ring.len() / 3 <= slot {
        return;
    }
    let end = entry.end;
    let before = entry.before;
    let touched = entry.touched;
    ring[3 * slot] = end;
    ring[3 * slot + 1] = before;
    ring[3 * slot + 2] = touched;
}

// Bit n of a number stands for file n.
fn touches(touched: u64, file: u64) -> bool
    ensures { result ≡ bit_for file touched }
{
    if file == 0 {
        return touched % 2 == 1;
    }
    if file == 1 {
        return touched / 2 % 2 == 1;
    }
    if file == 2 {
        return touched / 4 % 2 == 1;
    }
    touched / 8 % 2 == 1
}

impl LedgerRefusal {
    // The refusal's number. No paper gives it.
    pub fn number(self) -> u64
        ensures { result ≡ ledger_number self }
    {
        match self {
            LedgerRefusal::EndNotAbove => 36,
            LedgerRefusal::AboveHandedOn => 37,
            LedgerRefusal::NoRoom => 38,
        }
    }

    // An end that goes back is the server's; the others are the caller's own input.
    pub fn kind(self) -> Kind
        ensures { kind_number result ≡ ledger_kind self }
    {
        match self {
            LedgerRefusal::EndNotAbove => Kind::Protocol,
            LedgerRefusal::AboveHandedOn => Kind::Usage,
            LedgerRefusal::NoRoom => Kind::Usage,
        }
    }
}

impl Ledger {
    // The first stream of a slot, asked from a start: every file is done up to it.
    pub fn first(start: u64) -> Ledger
        ensures { result ≡ first_of start }
    {
        Ledger {
            start,
            seen: 0,
            zero: start,
            one: start,
            two: start,
            three: start,
            largest: 0,
            opened: false,
            touched: 0,
            refusal: 0,
            front: 0,
            count: 0,
        }
    }

    // A further stream of the same slot. What is done stays done.
    pub fn stream(self, start: u64) -> Ledger
        ensures { result ≡ stream_of start self }
    {
        Ledger {
            start,
            seen: 0,
            zero: self.zero,
            one: self.one,
            two: self.two,
            three: self.three,
            largest: self.largest,
            opened: false,
            touched: 0,
            refusal: 0,
            front: 0,
            count: 0,
        }
    }

    // The larger of the start and what was seen.
    fn stable(self) -> u64
        ensures { result ≡ stable_of self }
    {
        larger(self.start, self.seen)
    }

    // To which position a file is done.
    fn done_of(self, file: u64) -> u64
        ensures { result ≡ file_done file self }
    {
        if file == 0 {
            return self.zero;
        }
        if file == 1 {
            return self.one;
        }
        if file == 2 {
            return self.two;
        }
        self.three
    }

    // Whether an entry is undone for a file.
    fn is_undone(self, file: u64, entry: Entry) -> bool
        ensures { result ≡ undone_in self file entry }
    {
        if entry.end <= self.start {
            return false;
        }
        let done = self.done_of(file);
        if entry.end <= done {
            return false;
        }
        touches(entry.touched, file)
    }

    // Whether it is undone for one of the four.
    fn is_held(self, entry: Entry) -> bool
        ensures { result ≡ undone_some self entry }
    {
        if self.is_undone(0, entry) {
            return true;
        }
        if self.is_undone(1, entry) {
            return true;
        }
        if self.is_undone(2, entry) {
            return true;
        }
        self.is_undone(3, entry)
    }

    // With the ring's entries from a slot on, so many.
    fn with_ring(self, front: usize, count: usize) -> Ledger
        ensures { result ≡ with_ring front count self }
    {
        let mut after = self;
        after.front = front;
        after.count = count;
        after
    }

    // Of any words a front within the ring, and no more entries than the ring holds.
    fn fitted(self, capacity: usize) -> Ledger
        ensures { result ≡ fitted_of capacity self }
    {
        let count = self.count.min(capacity);
        if self.front < capacity {
            return self.with_ring(self.front, count);
        }
        self.with_ring(0, count)
    }

    // Entries that are undone for no file leave from the front.
    fn settled(self, ring: &[u64]) -> Ledger
        ensures { result ≡ settled_of ring.now self }
    {
        let n = capacity(ring.len());
        let mut front = self.front;
        for behind in (0..self.count).rev() {
            let entry = entry_at(ring, front);
            if self.is_held(entry) {
                return self.with_ring(front, behind + 1);
            }
            front = next(n, front);
        }
        self.with_ring(front, 0)
    }

    // The mark with which every call on this stream is refused from now on.
    fn refused(self, number: u64) -> Answer
        ensures { answer_by result ≡ refused_answer number self }
    {
        let mut after = self;
        after.refusal = number;
        with_refusal(after, number)
    }

    // With one entry more.
    fn with_entry(self, opened: bool, bits: u64, position: u64) -> Ledger
        requires { self.count < 18446744073709551615 }
        ensures { result ≡ with_entry opened bits position self }
    {
        let mut after = self;
        after.seen = position;
        after.largest = larger(self.largest, position);
        after.opened = opened;
        after.touched = bits;
        after.count = self.count + 1;
        after
    }

    // An entry is kept after those that are there, with the stable position before it.
    fn entry_told(
        self,
        ring: &mut [u64],
        opened: bool,
        bits: u64,
        position: u64,
        touched: u64,
    ) -> Answer
        ensures { (result.refusal, result.ledger, ring.new) ≡ entry_told opened bits position touched self ring.old }
    {
        if position <= self.seen {
            return self.refused(LedgerRefusal::EndNotAbove.number());
        }
        let n = capacity(ring.len());
        if n <= self.count {
            return self.refused(LedgerRefusal::NoRoom.number());
        }
        let slot = slot_after(n, self.front, self.count);
        let entry = Entry {
            end: position,
            before: self.stable(),
            touched,
        };
        set_entry(ring, slot, entry);
        let more = self.with_entry(opened, bits, position);
        let ledger = more.settled(ring);
        Answer { ledger, refusal: 0 }
    }

    // Whether a transaction is open, and the files that its rows touch.
    fn with_transaction(self, opened: bool, bits: u64) -> Ledger
        ensures { result ≡ with_transaction opened bits self }
    {
        let mut after = self;
        after.opened = opened;
        after.touched = bits;
        after
    }

    // A keepalive that goes back counts for nothing.
    fn with_seen(self, position: u64) -> Ledger
        ensures { result ≡ with_seen position self }
    {
        let mut after = self;
        after.seen = larger(self.seen, position);
        after
    }

    // An event by its kind and position; the files that the rows touch are known.
    fn kind_told(
        self,
        ring: &mut [u64],
        listed: usize,
        kind: u64,
        position: u64,
        bits: u64,
    ) -> Answer
        ensures { (result.refusal, result.ledger, ring.new) ≡ kind_told listed kind position bits self ring.old }
    {
        if kind == COMMIT {
            let touched = commit_touches(listed, bits);
            return self.entry_told(ring, false, bits, position, touched);
        }
        if kind == BEGIN {
            let begun = self.with_transaction(true, bits);
            return with_refusal(begun, 0);
        }
        let same = self.with_transaction(self.opened, bits);
        if self.opened {
            return with_refusal(same, 0);
        }
        if kind == KEEP_ALIVE {
            let seen = same.with_seen(position);
            return with_refusal(seen, 0);
        }
        if kind == MESSAGE {
            return self.entry_told(ring, false, bits, position, ALL_FILES);
        }
        with_refusal(same, 0)
    }

    // A file goes to the larger of its position and what is done.
    fn raised(self, file: u64, position: u64) -> Ledger
        ensures { result ≡ raised_in file position self }
    {
        let mut after = self;
        if file == 0 {
            let at = larger(self.zero, position);
            after.zero = at;
            return after;
        }
        if file == 1 {
            let at = larger(self.one, position);
            after.one = at;
            return after;
        }
        if file == 2 {
            let at = larger(self.two, position);
            after.two = at;
            return after;
        }
        let at = larger(self.three, position);
        after.three = at;
        after
    }

    // All four files.
    fn all_raised(self, position: u64) -> Ledger
        ensures { result ≡ all_raised position self }
    {
        let a = larger(self.zero, position);
        let b = larger(self.one, position);
        let c = larger(self.two, position);
        let d = larger(self.three, position);
        let mut after = self;
        after.zero = a;
        after.one = b;
        after.two = c;
        after.three = d;
        after
    }

    // Why a file is not done up to a position: the stream's mark, 31 or 37; 0 where it may be.
    fn done_refusal(self, file: u64, position: u64) -> u64
        ensures { result ≡ done_refusal file position self }
    {
        if self.refusal != 0 {
            return self.refusal;
        }
        if LAST_FILE < file {
            return FileRefusal::NoSuchFile.number() as u64;
        }
        if self.largest < position {
            return LedgerRefusal::AboveHandedOn.number();
        }
        0
    }

    // The stable position before the first entry that is undone for a file, or the stable position.
    fn answer_from(self, ring: &[u64], file: u64) -> u64
        ensures { result ≡ answer_from ring.now self file self.front self.count }
    {
        let n = capacity(ring.len());
        let mut front = self.front;
        for _ in 0..self.count {
            let entry = entry_at(ring, front);
            if self.is_undone(file, entry) {
                return entry.before;
            }
            front = next(n, front);
        }
        self.stable()
    }

    // An event that a run handed on, with its data, and the list of relations and their files. A refused event marks the stream.
    pub fn tell(
        self,
        ring: &mut [u64],
        identifiers: &[u32],
        files: &[u64],
        kind: u64,
        position: u64,
        data: &[u8],
    ) -> Answer
        ensures { (result.refusal, result.ledger, ring.new)
            ≡ tell_of identifiers.now files.now kind position «data».now self ring.old }
    {
        let n = capacity(ring.len());
        let before = self.fitted(n);
        let mark = before.refusal;
        if mark != 0 {
            return with_refusal(before, mark);
        }
        let reply = touched::words::after_event(identifiers, files, kind, data, before.touched);
        let refusal = reply.refusal;
        if refusal != 0 {
            return before.refused(refusal);
        }
        let listed = identifiers.len().min(files.len());
        before.kind_told(ring, listed, kind, position, reply.bits)
    }

    // A file is done up to a position.
    pub fn done(self, ring: &[u64], file: u64, position: u64) -> Answer
        ensures { answer_by result ≡ done_of file position self ring.now }
    {
        let n = capacity(ring.len());
        let before = self.fitted(n);
        let refusal = before.done_refusal(file, position);
        if refusal != 0 {
            return with_refusal(before, refusal);
        }
        let raised = before.raised(file, position);
        let settled = raised.settled(ring);
        with_refusal(settled, 0)
    }

    // All four files are done up to a position.
    pub fn all_done(self, ring: &[u64], position: u64) -> Answer
        ensures { answer_by result ≡ all_done_of position self ring.now }
    {
        let n = capacity(ring.len());
        let before = self.fitted(n);
        let refusal = before.done_refusal(0, position);
        if refusal != 0 {
            return with_refusal(before, refusal);
        }
        let raised = before.all_raised(position);
        let settled = raised.settled(ring);
        with_refusal(settled, 0)
    }

    // What may be reported of a file.
    pub fn answer(self, ring: &[u64], file: u64) -> Result<u64, FileRefusal>
        ensures { position_by result ≡ answer_of file self ring.now }
    {
        if LAST_FILE < file {
            return Err(FileRefusal::NoSuchFile);
        }
        let n = capacity(ring.len());
        let fitted = self.fitted(n);
        Ok(fitted.answer_from(ring, file))
    }

    // How many entries more the ring holds.
    pub fn room(self, ring: &[u64]) -> usize
        ensures { result ≡ room_of self ring.now }
    {
        let n = capacity(ring.len());
        n - self.count.min(n)
    }
}

fn with_refusal(ledger: Ledger, refusal: u64) -> Answer
    ensures { answer_by result ≡ answered refusal ledger }
{
    Answer { ledger, refusal }
}
