#![tactic(auto)]
// A relation cache: what the Relation messages of a stream said of their columns, and rows matched with it. SCOPE 17.
// specs/ say it by its meaning and for one layout of a lent memory: how many relations are held, their identifiers, their column counts; and for each
// column its type, its flags, its name's length and its name. Column c of the relation in slot r has number 32 r + c, and its name stands from byte
// 63 times that on. Crate packed_relations has the columns in words and the names without gaps, and answers as that layout does.
pub mod find;
pub mod store;

ghost use Rattle.std.specs.Prelude.{◌≡◌, Ok};
ghost use Rattle.error.specs.Refusal.{kind_number};
ghost use Rattle.relations.specs.declared.Refused.TheVariants.{Data, Cache};
ghost use Rattle.relations.specs.Answers.{number_of, kind_of, refused_number, related_by, related_of};
ghost use Rattle.rows.specs.Head.{answer_by as row_by};

use error::Kind;
use rows::{Part, Row};

// At most so many relations are held.
pub const RELATIONS: usize = 64;
// A relation that is held has at most so many columns.
pub const COLUMNS: usize = 32;
// A column's name has at most so many bytes.
pub const NAME: usize = 63;

// Why a message is refused that is well-formed: 28 to 30, and 4.
#[derive(Clone, Copy)]
pub enum Refusal {
    CacheFull = 28, // 64 other relations are held
    TooLarge, // a relation has more than 32 columns or a name of more than 63 bytes
    Unmatched, // a row's relation is not held, or has another number of columns
    NoRoom = 4, // the names of the relations do not fit in what is lent for them
}

// Why a message is refused: its data are, with 26 or 27, or the cache does not take it.
#[derive(Clone, Copy)]
pub enum Refused {
    Data(rows::Refusal),
    Cache(Refusal),
}

impl From<rows::Refusal> for Refused {
    ghost from_gives = { λ r e. e ≡ Data r };

    fn from(r: rows::Refusal) -> Refused {
        Refused::Data(r)
    }
}

impl From<Refusal> for Refused {
    ghost from_gives = { λ r e. e ≡ Cache r };

    fn from(r: Refusal) -> Refused {
        Refused::Cache(r)
    }
}

impl Refused {
    // The refusal's number.
    pub fn number(self) -> u8
        ensures { result ≡ refused_number self }
    {
        match self {
            Refused::Data(r) => r.number(),
            Refused::Cache(r) => r.number(),
        }
    }
}

// A Relation's identifier, how many columns it has, and where the first description stands.
#[derive(Clone, Copy)]
pub struct Related {
    pub id: u32,
    pub columns: usize,
    pub from: usize,
}

// A column of a held relation: where its name stands among the lent names, whether it is of the key, its type.
#[derive(Clone, Copy)]
pub struct Column {
    pub name: Part,
    pub key: bool,
    pub oid: u32,
}

impl Refusal {
    // The refusal's number.
    pub fn number(self) -> u8
        ensures { result ≡ number_of self }
    {
        self as u8
    }

    pub fn kind(self) -> Kind
        ensures { kind_number result ≡ kind_of self }
    {
        match self {
            Refusal::CacheFull | Refusal::TooLarge | Refusal::Unmatched => Kind::Protocol,
            Refusal::NoRoom => Kind::Usage,
        }
    }
}

// A Relation's, of the rows.
pub fn relation_of(row: Option<Row>) -> Option<Related>
    ensures { related_by result ≡ related_of (row_by (Ok row)) }
{
    match row {
        Some(
            Row::Relation {
                id,
                columns,
                from,
                ..
            },
        ) => Some(Related { id, columns, from }),
        _ => None,
    }
}
