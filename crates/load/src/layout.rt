// The number of the words in which a host is told an event of the generator. SCOPE 9.9. .ci/border.rs makes the header, the declarations and the
// tables of it.

// ---- an event of a load: its kind and its six numbers, as in the answer of a step

// How many words the event has.
pub const LOAD_WORDS: usize = 7;
