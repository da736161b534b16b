// The interface as a whole: what holds of every call, and its number. .ci/border.rs makes the C header (host/include/rufflesquash.h), the
// declarations of the Rust crate (host/src/ffi/bindings.rs) and the tables of SCOPE 9 of the comments, constants and functions of this crate and of
// the lists of words that it names.

// ---- use
//
// A host compares the number of the interface, opens a run (`rufflesquash_open`) and sends what that wrote. Then it makes steps (`rufflesquash_step`,
// `rufflesquash_advance`): each takes bytes that came from the server, writes bytes that are to be sent, and may hand on an event. While nothing
// comes, `rufflesquash_next_step` tells when the next step is due. What was applied is reported (`rufflesquash_report`), and statuses confirm it.

// ---- words
//
// A run, a progress cell, a reader of messages and a simple query are arrays of words of 64 bits that the host lends. They are opaque: a host keeps
// and copies them whole, and looks into them with the calls alone. Any words are those of some run, so no call refuses words. What a word holds may
// change with the number of the interface.
//
// Settings and answers are arrays of words that have names. Flags are 1 or 0 in answers, and true unless 0 where a host hands them in. Times are
// two's complement. Words that a case does not use are 0.

// ---- lent memory
//
// - A lent buffer is a pointer and a length. An empty one may have any pointer, the null pointer too; so may an empty list of texts. Arrays of words
//   and single words are never null.
// - Buffers of one call do not overlap, unless all of them are only read. They stay valid for the call, and the library keeps none of them.
// - Nothing is read or written outside of what is lent.
// - A part that an answer names lies within the buffer of which it is a part, whatever words the call was given: its place and its place plus its
//   length are at most that buffer's length.

// ---- refusals
//
// A call that can refuse answers the refusal's number, 1 to 35 (docs/SCOPE.md, section 7), 0 for none, and gives a count or position through a lent
// word, which is 0 where it refuses; where more is answered the number is a word of the answer.

// ---- the interface: its number grows with every change of a function, of a constant or of what they mean

// A host compares this number, which it was built with, with the one that `rufflesquash_abi` answers.
pub const ABI: u64 = 14;
