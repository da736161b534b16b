#![tactic(auto)]
// Which files a transaction touched: one bit for each of four, cleared by Begin, set by every row and Truncate whose relation has a file in a list.
pub mod words;

ghost use Rattle.std.specs.Prelude.{◌≡◌, [], ◌∷◌, ◌≤◌, min, length, nat_lt};
ghost use Rattle.std.specs.List.{list_any};
ghost use Rattle.rows.specs.Rows.{row_said};
ghost use Rattle.touched.specs.Touched.{entries_of, has_no_file, file_of, changed_by, clear, is_full, with_all, tells_by, after_of, answer_by};
ghost use Rattle.touched.specs.Bits.{bit_of, bit_at, bits_of, files_by};
ghost use Rattle.touched.specs.Code.{with_file, identifiers_at};
ghost use Rattle.wire.specs.Answer.{maybe};

use progress::files::{FileRefusal, LAST_FILE};
use rows::Row;

// Entries past so many are not read.
pub const ENTRIES: usize = 64;

// For each file whether it was touched.
#[derive(Clone, Copy)]
pub struct Files {
    pub zero: bool,
    pub one: bool,
    pub two: bool,
    pub three: bool,
}

// What an event tells of files: that a transaction begins; that there are data, which may be a row; or nothing.
#[derive(Clone, Copy)]
pub enum Tells {
    Begin,
    Data,
    Nothing,
}

impl Files {
    // None is touched at first.
    pub fn clear() -> Files
        ensures { result ≡ clear }
    {
        Files {
            zero: false,
            one: false,
            two: false,
            three: false,
        }
    }

    // Whether all four are touched.
    pub fn is_full(self) -> bool
        ensures { result ≡ is_full self }
    {
        if !self.zero {
            return false;
        }
        if !self.one {
            return false;
        }
        if !self.two {
            return false;
        }
        self.three
    }

    // These and one more; a number above 3 is no file's.
    fn with(self, file: u64) -> Files
        ensures { result ≡ with_file file self }
    {
        let mut files = self;
        if file == 0 {
            files.zero = true;
            return files;
        }
        if file == 1 {
            files.one = true;
            return files;
        }
        if file == 2 {
            files.two = true;
            return files;
        }
        if file == 3 {
            files.three = true;
            return files;
        }
        self
    }

    // Bit n of a number stands for file n; bits above the four are not read.
    pub fn of_bits(n: u64) -> Files
        ensures { result ≡ files_by n }
    {
        Files {
            zero: is_odd(n),
            one: is_odd(n / 2),
            two: is_odd(n / 4),
            three: is_odd(n / 8),
        }
    }

    // The number whose bit n stands for file n, 0 to 15.
    pub fn bits(self) -> u64
        ensures { result ≡ bits_of self }
    {
        let a = bit(self.zero);
        let b = bit(self.one);
        let c = bit(self.two);
        let d = bit(self.three);
        a + 2 * b + 4 * c + 8 * d
    }
}

fn is_odd(n: u64) -> bool
    ensures { result ≡ bit_at n }
{
    n % 2 == 1
}

fn bit(b: bool) -> u64
    ensures { (result ≡ bit_of b) × (result ≤ 1) }
{
    u64::from(b)
}

// How many entries are read: identifiers and files are lent apart, and the shorter length holds.
fn entries(identifiers: &[u32], files: &[u64]) -> usize
    ensures { result ≡ min 64 (min (length identifiers.now) (length files.now)) }
{
    ENTRIES.min(identifiers.len().min(files.len()))
}

// Whether one of these is above 3.
fn has_other(files: &[u64]) -> bool
    ensures { result ≡ list_any (λ f. nat_lt 3 f) files.now }
{
    files.iter().any(|file| LAST_FILE < *file)
}

// Whether an entry that is read has a file above 3.
fn has_no_file(identifiers: &[u32], files: &[u64]) -> bool
    ensures { result ≡ has_no_file (entries_of identifiers.now files.now) }
{
    let n = entries(identifiers, files);
    has_other(&files[..n])
}

// The file of an identifier. Of a repeated one the first entry holds.
fn file_of(identifiers: &[u32], files: &[u64], id: u32) -> Option<u64>
    ensures { maybe result ≡ file_of (entries_of identifiers.now files.now) id }
{
    let n = entries(identifiers, files);
    for i in 0..n {
        if identifiers[i] == id {
            return Some(files[i]);
        }
    }
    None
}

// A relation was changed.
fn with_relation(identifiers: &[u32], files: &[u64], id: u32, before: Files) -> Files
    ensures { result ≡ with_all (entries_of identifiers.now files.now) (id ∷ []) before }
{
    match file_of(identifiers, files, id) {
        Some(file) => before.with(file),
        None => before,
    }
}

// So many relations were changed, whose identifiers stand one after the other from a place on.
fn with_relations(
    identifiers: &[u32],
    files: &[u64],
    data: &[u8],
    n: usize,
    from: usize,
    before: Files,
) -> Files
    ensures { result ≡ with_all (entries_of identifiers.now files.now) (identifiers_at «data».now n from) before }
{
    let mut touched = before;
    let mut place = from;
    for _ in 0..n {
        let Ok((id, next)) = rows::items::identifier_at(data, place) else {
            return touched;
        };
        touched = with_relation(identifiers, files, id, touched);
        place = next;
    }
    touched
}

// Data that are no row, and a row that is refused, touch nothing.
fn after_row(identifiers: &[u32], files: &[u64], data: &[u8], before: Files) -> Files
    ensures { result ≡ with_all (entries_of identifiers.now files.now) (changed_by (row_said «data».now)) before }
{
    match rows::read_row(data) {
        Ok(Some(Row::Insert { relation, .. })) => with_relation(
            identifiers,
            files,
            relation,
            before,
        ),
        Ok(Some(Row::Update { relation, .. })) => with_relation(
            identifiers,
            files,
            relation,
            before,
        ),
        Ok(Some(Row::UpdateFrom { relation, .. })) => with_relation(
            identifiers,
            files,
            relation,
            before,
        ),
        Ok(Some(Row::Delete { relation, .. })) => with_relation(
            identifiers,
            files,
            relation,
            before,
        ),
        Ok(
            Some(
                Row::Truncate {
                    relations,
                    from,
                    ..
                },
            ),
        ) => with_relations(identifiers, files, data, relations, from, before),
        Ok(Some(Row::Relation { .. })) => before,
        Ok(Some(Row::Type { .. })) => before,
        Ok(Some(Row::Origin { .. })) => before,
        Ok(None) => before,
        Err(_) => before,
    }
}

// Where all four files are touched the data are not read.
fn after_data(identifiers: &[u32], files: &[u64], data: &[u8], before: Files) -> Files
    ensures { result ≡ with_all (entries_of identifiers.now files.now) (changed_by (row_said «data».now)) before }
{
    if before.is_full() {
        return before;
    }
    after_row(identifiers, files, data, before)
}

// The list is judged first, at every call. Data are looked at where the event tells that there are some.
pub fn after(
    identifiers: &[u32],
    files: &[u64],
    tells: Tells,
    data: &[u8],
    before: Files,
) -> Result<Files, FileRefusal>
    ensures { answer_by before result
        ≡ after_of (entries_of identifiers.now files.now) (tells_by tells «data».now) before }
{
    if has_no_file(identifiers, files) {
        return Err(FileRefusal::NoSuchFile);
    }
    match tells {
        Tells::Begin => Ok(Files::clear()),
        Tells::Data => {
            let touched = after_data(identifiers, files, data, before);
            Ok(touched)
        }
        Tells::Nothing => Ok(before),
    }
}
