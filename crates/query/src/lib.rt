#![tactic(auto)]
// DataRow, and the answers to a simple query.
pub mod data_row;
pub mod simple;

// A column of a DataRow: a null, a value, which is a part of the payload, or no such column. (It stands here, since one module cannot have a
// `Column` and a `column`.)
#[derive(Clone, Copy)]
pub enum Column {
    Null,
    Part(usize, usize),
    Absent,
}
