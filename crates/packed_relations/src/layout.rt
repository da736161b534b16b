// The numbers of a relation cache that a host lends and is answered: how long its arrays are, and which word is which. SCOPE 9.10. .ci/border.rs
// makes the header, the declarations and the tables of it.

// ---- the lent memory of a relation cache: 16,712 bytes in four parts, and the names, for which as many bytes are lent as the host has

// At most so many relations are held, each with an identifier and a count of columns.
pub const CACHE_RELATIONS: usize = 64;

// The words of their columns, 32 for each relation.
pub const CACHE_COLUMNS: usize = 2048;

// No more bytes of the names are read or written: 63 for each column.
pub const CACHE_NAMES: usize = 129024;

// ---- a column of a held relation

// How many words are told of a column.
pub const CACHE_COLUMN_WORDS: usize = 5;

// Whether there is such a column, 1 or 0.
pub const CACHE_COLUMN_GIVEN: usize = 0;

// The place of its name in names.
pub const CACHE_COLUMN_NAME_FROM: usize = 1;

// The length of its name.
pub const CACHE_COLUMN_NAME_LEN: usize = 2;

// Whether it belongs to the key, 1 or 0.
pub const CACHE_COLUMN_KEY: usize = 3;

// Its type.
pub const CACHE_COLUMN_TYPE: usize = 4;
