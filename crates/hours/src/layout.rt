// The numbers of the words in which a host is told an answer, and how many windows it hands in. SCOPE 9.8. .ci/border.rs makes the header, the
// declarations and the tables of it.

// ---- opening hours: windows, Monday first

// How many windows there are.
pub const HOURS_DAYS: usize = 7;

// ---- what the opening hours answer

// How many words the answer has.
pub const HOURS_WORDS: usize = 3;

// Whether the hall is open, 1 or 0.
pub const HOURS_OPEN: usize = 0;

// Whether that ever changes, 1 or 0.
pub const HOURS_CHANGES: usize = 1;

// The first later moment at which it changes, in two's complement, 0 where it never does.
pub const HOURS_MOMENT: usize = 2;
