// The numbers of the words about rows that a host is handed: which word is which, and what a word's value names. SCOPE 9.6. .ci/border.rs makes the
// header, the declarations and the tables of it.

// ---- the head of a row: words that a row does not have are 0

// How many words a row's head has.
pub const ROW_WORDS: usize = 11;

// Its kind.
pub const ROW_KIND: usize = 0;

// The identifier of a relation or type, of an Origin the position of the commit at the origin.
pub const ROW_ID: usize = 1;

// The replica identity of a Relation, the letter before an old tuple, the options of a Truncate.
pub const ROW_BYTE: usize = 2;

// How many columns, descriptions or relations there are.
pub const ROW_COUNT: usize = 3;

// The place in data of the first one.
pub const ROW_FROM: usize = 4;

// How many columns the old tuple has.
pub const ROW_OLD_COUNT: usize = 5;

// The place in data of its first column.
pub const ROW_OLD_FROM: usize = 6;

// The namespace's place in data.
pub const ROW_NAMESPACE_FROM: usize = 7;

// The namespace's length.
pub const ROW_NAMESPACE_LEN: usize = 8;

// The name's place in data.
pub const ROW_NAME_FROM: usize = 9;

// The name's length.
pub const ROW_NAME_LEN: usize = 10;

// ---- kinds of rows, each with the words of its head

// No row, or refused.
pub const ROW_NONE: u64 = 0;

// Relation: its identifier, its replica identity, its descriptions (`rufflesquash_row_description`), namespace and name.
pub const ROW_RELATION: u64 = 1;

// Type: its identifier, namespace and name.
pub const ROW_TYPE: u64 = 2;

// Origin: its position and its name.
pub const ROW_ORIGIN: u64 = 3;

// Insert: the relation's identifier, the new tuple (`rufflesquash_row_column`).
pub const ROW_INSERT: u64 = 4;

// Update: the relation's identifier, the new tuple, the old tuple after `K` where it has the key alone, after `O` where it has all columns; the
// byte is 0 where no old tuple is sent.
pub const ROW_UPDATE: u64 = 5;

// Delete: the relation's identifier, the old tuple after `K` or `O`, as such.
pub const ROW_DELETE: u64 = 6;

// Truncate: its options, its relations (`rufflesquash_row_identifier`).
pub const ROW_TRUNCATE: u64 = 7;

// ---- a column of a tuple

// How many words are told of a column.
pub const TUPLE_WORDS: usize = 4;

// The refusal's number (26, 27), 0 for none.
pub const TUPLE_REFUSAL: usize = 0;

// Its kind.
pub const TUPLE_KIND: usize = 1;

// The place of the value of a text or binary column in data, else 0.
pub const TUPLE_FROM: usize = 2;

// The length of that value, else 0.
pub const TUPLE_LEN: usize = 3;

// ---- kinds of columns of a tuple

// The column is refused.
pub const TUPLE_NONE: u64 = 0;

// The column is null.
pub const TUPLE_NULL: u64 = 1;

// The value is unchanged and not sent.
pub const TUPLE_UNCHANGED: u64 = 2;

// The value is a text.
pub const TUPLE_TEXT: u64 = 3;

// The value is binary.
pub const TUPLE_BINARY: u64 = 4;

// ---- a description: a column of a Relation

// How many words are told of a description.
pub const DESCRIPTION_WORDS: usize = 6;

// The refusal's number (26), 0 for none.
pub const DESCRIPTION_REFUSAL: usize = 0;

// The flags; 1 where the column belongs to the key.
pub const DESCRIPTION_FLAGS: usize = 1;

// The name's place in data.
pub const DESCRIPTION_NAME_FROM: usize = 2;

// The name's length.
pub const DESCRIPTION_NAME_LEN: usize = 3;

// The type.
pub const DESCRIPTION_TYPE: usize = 4;

// The type modifier in two's complement.
pub const DESCRIPTION_MODIFIER: usize = 5;

// ---- a relation of a Truncate

// How many words are told of a relation.
pub const IDENTIFIER_WORDS: usize = 2;

// The refusal's number (26), 0 for none.
pub const IDENTIFIER_REFUSAL: usize = 0;

// Its identifier.
pub const IDENTIFIER_ID: usize = 1;
