#![tactic(auto)]
// The leaves that every reader and writer stands on: big-endian fields, copying, the search for a byte, a flag as a word.
pub mod field;
pub mod find;
pub mod store;
pub mod word;
