// The part of a text at a place: a well-formed sequence, or a maximal ill-formed part.
ghost use Rattle.std.specs.Prelude.{◌≡◌, ◌+◌, ◌≤◌, ◌<◌, true, false, eqb, length, drop, Some};
ghost use Rattle.utf8.specs.WellFormed.{table, row_of, matched};
ghost use Rattle.lossy.specs.Code.{behind_first, trail, lead_said, due_in, first_in, PartAt};

// How many bytes a part has, and whether they are a well-formed sequence.
#[derive(Clone, Copy)]
pub(crate) struct Part {
    pub len: usize,
    pub well: bool,
}

// What may follow a first byte: how many bytes are due, and the range of the next of them; those after it are 80 to BF.
#[derive(Clone, Copy)]
pub(crate) struct Lead {
    pub due: u8,
    pub low: u8,
    pub high: u8,
}

fn due(n: u8, low: u8, high: u8) -> Option<Lead>
    ensures { result ≡ Some (record { due = n; low = low; high = high }) }
{
    Some(Lead { due: n, low, high })
}

// The row that a first byte begins.
fn lead_of(b: u8) -> Option<Lead>
    ensures { (lead_said result ≡ behind_first (row_of table b)) × (due_in result ≤ 3) }
{
    if b < 0x80 {
        due(0, 0x80, 0xBF)
    } else if b < 0xC2 {
        None
    } else if b < 0xE0 {
        due(1, 0x80, 0xBF)
    } else if b < 0xE1 {
        due(2, 0xA0, 0xBF)
    } else if b < 0xED {
        due(2, 0x80, 0xBF)
    } else if b < 0xEE {
        due(2, 0x80, 0x9F)
    } else if b < 0xF0 {
        due(2, 0x80, 0xBF)
    } else if b < 0xF1 {
        due(3, 0x90, 0xBF)
    } else if b < 0xF4 {
        due(3, 0x80, 0xBF)
    } else if b < 0xF5 {
        due(3, 0x80, 0x8F)
    } else {
        None
    }
}

// A well-formed part of so many bytes, and an ill-formed one.
fn well(len: usize) -> Part
    ensures { result ≡ record { len = len; well = true } }
{
    Part { len, well: true }
}

fn ill(len: usize) -> Part
    ensures { result ≡ record { len = len; well = false } }
{
    Part { len, well: false }
}

// Whether a byte from low to high stands at the place.
fn next_in(s: &[u8], at: usize, low: u8, high: u8) -> bool
    ensures { result ≡ first_in (record { low = low; high = high }) (drop at s.now) }
{
    if s.len() <= at {
        return false;
    }
    if s[at] < low {
        return false;
    }
    s[at] <= high
}

// The part of a first byte, by how many of the bytes that are due stand from the place on. Each number that may be due has an arm of its own, which
// says at each of its ends whether the part is well-formed: nothing is counted and compared.
fn follow(s: &[u8], at: usize, l: Lead) -> Part
    requires { (at ≤ length s.now) × (l.due ≤ 3) }
    ensures { result
        ≡ record { len = 1 + matched (trail l) (drop at s.now); well = eqb (matched (trail l) (drop at s.now)) l.due } }
{
    match l.due {
        0 => well(1),
        1 => {
            if next_in(s, at, l.low, l.high) {
                well(2)
            } else {
                ill(1)
            }
        }
        2 => {
            if !next_in(s, at, l.low, l.high) {
                ill(1)
            } else if next_in(s, at + 1, 0x80, 0xBF) {
                well(3)
            } else {
                ill(2)
            }
        }
        _ => {
            if !next_in(s, at, l.low, l.high) {
                ill(1)
            } else if !next_in(s, at + 1, 0x80, 0xBF) {
                ill(2)
            } else if next_in(s, at + 2, 0x80, 0xBF) {
                well(4)
            } else {
                ill(3)
            }
        }
    }
}

// The part that begins at the place.
#[inline]
pub(crate) fn part_at(s: &[u8], at: usize) -> Part
    requires { at < length s.now }
    ensures { PartAt s.now at result }
{
    let Some(l) = lead_of(s[at]) else {
        return ill(1);
    };
    follow(s, at + 1, l)
}
