#![tactic(auto)]
// What the calls of a host answer besides steps, as words of 64 bits. SCOPE 9.2, 9.4. The rules are in specs/, what each word means in crate
// `thm_word_meaning`; the words have names in `ffi_words::layout`.
pub mod fold;
pub mod kind;
pub mod next;
pub mod part;
pub mod read;
pub mod reply;
pub mod shown;
