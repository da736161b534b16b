// Parts of a payload: the rest of an authentication request, a column of a row, a field of an error, the error that ended a run.
// Kinds, refusals and flags are numbers here: the C interface.
ghost use Rattle.std.specs.Prelude.{◌≡◌};
ghost use Rattle.wire.specs.Answer.{maybe};
ghost use Rattle.messages.specs.Auth.{auth_outcome};
ghost use Rattle.query.specs.DataRow.{column_outcome};
ghost use Rattle.wire.specs.Int.{value};
ghost use Rattle.ffi_answers.specs.Parts.{auth_words, column_reply, field_words, error_words};

use error::Refusal;
use ffi_words::layout;
use messages::{AuthRequest, Field};
use query::Column;
use wire::field::of_i64;

// Two's complement.
fn code_word(code: i32) -> u64
    ensures { result ≡ value 8 code }
{
    of_i64(code as i64)
}

pub fn auth_words(request: Result<AuthRequest, Refusal>) -> [u64; layout::AUTH_WORDS]
    ensures { result ≡ auth_words (auth_outcome request) }
{
    match request {
        Ok(r) => [0, code_word(r.code), r.from as u64, r.len as u64],
        Err(r) => [r.number() as u64, 0, 0, 0],
    }
}

// A refusal's number, 0 for none, and the words of a column.
#[derive(Clone, Copy)]
pub struct ColumnReply {
    pub refusal: u64,
    pub words: [u64; layout::COLUMN_WORDS],
}

pub fn column_reply(column: Result<Column, Refusal>) -> ColumnReply
    ensures { (result.refusal, result.words) ≡ column_reply (column_outcome column) }
{
    match column {
        Ok(Column::Absent) => ColumnReply {
            refusal: 0,
            words: [layout::COLUMN_ABSENT, 0, 0],
        },
        Ok(Column::Null) => ColumnReply {
            refusal: 0,
            words: [layout::COLUMN_NULL, 0, 0],
        },
        Ok(Column::Part(from, len)) => ColumnReply {
            refusal: 0,
            words: [layout::COLUMN_VALUE, from as u64, len as u64],
        },
        Err(r) => ColumnReply {
            refusal: r.number() as u64,
            words: [layout::COLUMN_ABSENT, 0, 0],
        },
    }
}

pub fn field_words(field: Option<Field>) -> [u64; layout::FIELD_WORDS]
    ensures { result ≡ field_words field }
{
    match field {
        Some(f) => [1, f.from as u64, f.len as u64],
        None => [0, 0, 0],
    }
}

// The error's length, as far as a payload buffer of so many bytes has it: words that no call made may say more. SCOPE 5.11.
pub fn error_words(part: Option<usize>, payload_len: usize) -> [u64; layout::ERROR_WORDS]
    ensures { result ≡ error_words (maybe part) payload_len }
{
    match part {
        None => [0, 0],
        Some(n) => [1, n.min(payload_len) as u64],
    }
}
