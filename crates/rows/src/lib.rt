#![tactic(auto)]
// The messages of pgoutput that carry rows: Relation, Type, Origin, Insert, Update, Delete and Truncate of protocol version 1. Data are judged to the
// row's end and answered by its head; columns, descriptions and identifiers are then read one by one, each at the place that the last one answered.
pub mod items;
pub mod layout;
mod messages;
mod walk;
pub mod words;

ghost use Rattle.std.specs.Prelude.{◌≡◌};
ghost use Rattle.error.specs.Refusal.{kind_number};
ghost use Rattle.rows.specs.Head.{number_of, kind_of, answer_of, answer_by};
ghost use Rattle.rows.specs.Rows.{boundary_letter, row_said};

use error::Kind;

// Why data are refused, 26 and 27.
#[derive(Clone, Copy)]
pub enum Refusal {
    FieldCut = 26, // a field is cut short, or a count or length is negative
    UnknownLetter, // a letter stands where the document does not list it
}

// A part of the data.
#[derive(Clone, Copy)]
pub struct Part {
    pub from: usize,
    pub len: usize,
}

// How many columns there are, and where the first one stands.
#[derive(Clone, Copy)]
pub struct Tuple {
    pub columns: usize,
    pub from: usize,
}

// Which columns of the old row are sent: the key's, or all of them.
#[derive(Clone, Copy)]
pub enum Which {
    Key,
    Old,
}

// A row's head: its numbers, its names as parts, and where its columns, descriptions or identifiers begin.
#[derive(Clone, Copy)]
pub enum Row {
    Relation {
        id: u32,
        namespace: Part,
        name: Part,
        identity: u8,
        columns: usize,
        from: usize,
    },
    Type {
        id: u32,
        namespace: Part,
        name: Part,
    },
    Origin {
        position: u64,
        name: Part,
    },
    Insert {
        relation: u32,
        new: Tuple,
    },
    Update {
        relation: u32,
        new: Tuple,
    },
    UpdateFrom {
        relation: u32,
        which: Which,
        old: Tuple,
        new: Tuple,
    },
    Delete {
        relation: u32,
        which: Which,
        old: Tuple,
    },
    Truncate {
        relations: usize,
        options: u8,
        from: usize,
    },
}

// A column of a tuple.
#[derive(Clone, Copy)]
pub enum Column {
    Null,
    Unchanged,
    Text(Part),
    Binary(Part),
}

// A column of a relation.
#[derive(Clone, Copy)]
pub struct Description {
    pub flags: u8,
    pub name: Part,
    pub oid: u32,
    pub modifier: i32,
}

impl Refusal {
    // The refusal's number.
    pub fn number(self) -> u8
        ensures { result ≡ number_of self }
    {
        self as u8
    }

    pub fn kind(self) -> Kind
        ensures { kind_number result ≡ kind_of self }
    {
        Kind::Protocol
    }
}

// Begin, Commit and Message carry no row.
fn is_boundary(letter: u8) -> bool
    ensures { result ≡ boundary_letter letter }
{
    if letter == b'B' {
        return true;
    }
    if letter == b'C' {
        return true;
    }
    letter == b'M'
}

// The row that the data hold. What follows it is not read.
pub fn read_row(bytes: &[u8]) -> Result<Option<Row>, Refusal>
    ensures { answer_by result ≡ answer_of (row_said bytes.now) }
{
    if bytes.len() == 0 {
        return Err(Refusal::FieldCut);
    }
    let letter = bytes[0];
    if is_boundary(letter) {
        return Ok(None);
    }
    if letter == b'R' {
        return messages::relation_at(bytes).map(Some);
    }
    if letter == b'Y' {
        return messages::type_at(bytes).map(Some);
    }
    if letter == b'O' {
        return messages::origin_at(bytes).map(Some);
    }
    if letter == b'I' {
        return messages::insert_at(bytes).map(Some);
    }
    if letter == b'U' {
        return messages::update_at(bytes).map(Some);
    }
    if letter == b'D' {
        return messages::delete_at(bytes).map(Some);
    }
    if letter == b'T' {
        return messages::truncate_at(bytes).map(Some);
    }
    Err(Refusal::UnknownLetter)
}
