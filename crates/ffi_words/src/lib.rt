#![tactic(auto)]
// A run, an event, a cell, a reader and what a step answers as words of 64 bits, for a host; and back from any words. SCOPE 9.
// The rules are in specs/, what each word means in crate `thm_word_meaning`.
pub mod cell;
mod event;
pub mod layout;
pub mod message_reader;
pub mod names;
pub mod run;
pub mod step;
pub mod word;
