#![tactic(auto)]
// A column of a relation in one word of 64 bits: key flag, type, length and place of its name. Document 02, wish 12.
ghost use Rattle.std.specs.Prelude.{◌≡◌, ◌≤◌};
ghost use Rattle.column_word.specs.Word.{word_of, column_in, key_bit};

// What is held of a column beside the bytes of its name.
#[derive(Clone, Copy)]
pub struct Column {
    pub key: bool,
    pub type_oid: u32,
    pub name_len: u32,
    pub name_at: u32,
}

fn key_bit(key: bool) -> u64
    ensures { (result ≡ key_bit key) × (result ≤ 1) }
{
    u64::from(key)
}

// The word of a column. Of a length and a place that have more bits than their fields the lowest bits count.
pub fn word_of(c: Column) -> u64
    ensures { result ≡ word_of c }
{
    let key = key_bit(c.key);
    let oid = c.type_oid as u64;
    let len = (c.name_len % 128) as u64;
    let place = (c.name_at % 16777216) as u64;
    key * 9223372036854775808 + oid * 2147483648 + len * 16777216 + place
}

// The column of a word: every word is that of some column.
pub fn column_in(word: u64) -> Column
    ensures { result ≡ column_in word }
{
    Column {
        key: word / 9223372036854775808 % 2 == 1,
        type_oid: (word / 2147483648 % 4294967296) as u32,
        name_len: (word / 16777216 % 128) as u32,
        name_at: (word % 16777216) as u32,
    }
}
