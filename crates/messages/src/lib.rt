#![tactic(auto)]
// Server messages outside the copy stream: the fields of an error, its text, authentication requests.
ghost use Rattle.std.specs.Prelude.{◌≡◌, ◌+◌, length, Some};
ghost use Rattle.wire.specs.Answer.{maybe};
ghost use Rattle.wire.specs.Find.{index_of};
ghost use Rattle.error.specs.Writer.{writing};
ghost use Rattle.lossy.specs.Lossy.{lossy_of};
ghost use Rattle.lossy.specs.Marks.{marks_of, measured, measure_of, with_marks, lossy_outcome};
ghost use Rattle.messages.specs.Fields.{fields_of, indexed, replaced, named, letters};
ghost use Rattle.messages.specs.FieldsSent.{fifteen};
ghost use Rattle.messages.specs.ErrorText.{error_text, error_marks, coded};
ghost use Rattle.messages.specs.Auth.{auth_of, auth_outcome};

use error::{INPUT_LIMIT, Refusal};
use lossy::Lossy;

// The letter of each field, at the index that the field's name stands for.
const LETTERS: [u8; 15] = *b"SCMDHPWstcdnFLR";

// A field of an error: a part of the payload.
#[derive(Clone, Copy)]
pub struct Field {
    pub from: usize,
    pub len: usize,
}

// The fifteen fields, in the order of their letters, each where it is given.
#[derive(Clone, Copy)]
pub struct ErrorFields {
    pub fields: [Option<Field>; 15],
}

// What an authentication request asks: its code, and a part of the payload.
#[derive(Clone, Copy)]
pub struct AuthRequest {
    pub code: i32,
    pub from: usize,
    pub len: usize,
}

impl ErrorFields {
    pub const SEVERITY: usize = 0;

    pub const CODE: usize = 1;

    pub const MESSAGE: usize = 2;

    pub const DETAIL: usize = 3;

    pub const HINT: usize = 4;

    pub const POSITION: usize = 5;

    pub const WHERE: usize = 6;

    pub const SCHEMA: usize = 7;

    pub const TABLE: usize = 8;

    pub const COLUMN: usize = 9;

    pub const DATA_TYPE: usize = 10;

    pub const CONSTRAINT: usize = 11;

    pub const FILE: usize = 12;

    pub const LINE: usize = 13;

    pub const ROUTINE: usize = 14;

    // The letters of the fields, each looked up by its field's name: what a name stands for is promised here.
    pub fn letters_by_name() -> [u8; 15]
        ensures { result ≡ fifteen }
    {
        let l = LETTERS;
        [
            l[ErrorFields::SEVERITY],
            l[ErrorFields::CODE],
            l[ErrorFields::MESSAGE],
            l[ErrorFields::DETAIL],
            l[ErrorFields::HINT],
            l[ErrorFields::POSITION],
            l[ErrorFields::WHERE],
            l[ErrorFields::SCHEMA],
            l[ErrorFields::TABLE],
            l[ErrorFields::COLUMN],
            l[ErrorFields::DATA_TYPE],
            l[ErrorFields::CONSTRAINT],
            l[ErrorFields::FILE],
            l[ErrorFields::LINE],
            l[ErrorFields::ROUTINE],
        ]
    }

    // Walks over the fields of a payload and remembers the latest value of each known letter, until a field has no end or no letter comes.
    pub fn parse(payload: &[u8]) -> ErrorFields
        ensures { result.fields ≡ fields_of payload.now }
    {
        let fields = [None; 15];
        let mut r = ErrorFields { fields };
        let mut at: usize = 0;
        while at < payload.len() {
            let letter = payload[at];
            if letter == 0 {
                return r;
            }
            let from = at + 1;
            let Some(len) = wire::find::find_zero(&payload[from..]) else {
                return r;
            };
            r = r.with(letter, Field { from, len });
            at = from + len + 1;
        }
        r
    }

    // The fields with that of the letter replaced, where it is the letter of one.
    fn with(mut self, letter: u8, f: Field) -> ErrorFields
        ensures { result.fields ≡ replaced (index_of letter letters) (Some f) self.fields }
    {
        let Some(i) = index_of(letter) else {
            return self;
        };
        self.fields[i] = Some(f);
        self
    }

    // The field of an index, absent where no field has it.
    pub fn field(self, i: usize) -> Option<Field>
        ensures { result ≡ indexed self.fields i }
    {
        if i < 15 {
            return self.fields[i];
        }
        None
    }
}

// The index of a letter's field.
fn index_of(letter: u8) -> Option<usize>
    ensures { maybe result ≡ index_of letter letters }
{
    wire::find::find(&LETTERS, letter)
}

// The bytes that a field names, as far as the payload has them.
pub fn part(payload: &[u8], f: Field) -> &[u8]
    ensures { result.now ≡ named payload.now (Some f) }
{
    let from = f.from;
    let len = f.len;
    if payload.len() < from {
        return &payload[0..0];
    }
    if payload.len() - from < len {
        return &payload[from..];
    }
    &payload[from..from + len]
}

// The length of the text with the code after it, both lossy, where that is at most room, and the marks of both. 12 of the bytes are neither's.
fn measure_coded(text: &[u8], code: &[u8], room: usize) -> Option<Lossy>
    ensures { measure_of result
        ≡ measured room (length (coded (lossy_of text.now) (lossy_of code.now)))
        (marks_of text.now + marks_of code.now) }
{
    let first = lossy::measure(text, room)?;
    let left = room - first.bytes;
    if left < 12 {
        return None;
    }
    let second = lossy::measure(code, left - 12)?;
    Some(Lossy {
        bytes: first.bytes + 12 + second.bytes,
        marks: first.marks + second.marks,
    })
}

// Writes the text with the code after it, both lossy.
fn with_code(text: &[u8], code: &[u8], out: &mut [u8]) -> Result<Lossy, Refusal>
    ensures { (lossy_outcome result, out.new)
        ≡ with_marks (marks_of text.now + marks_of code.now)
        (writing 0 (coded (lossy_of text.now) (lossy_of code.now)) out.old) }
{
    let Some(length) = measure_coded(text, code, out.len()) else {
        return Err(Refusal::OutputTooShort);
    };
    let a = lossy::place(out, 0, text);
    let b = wire::store::place(out, a, b" (SQLSTATE ");
    let c = lossy::place(out, b, code);
    wire::store::place(out, c, b")");
    Ok(length)
}

// The text of an error, for people, and its marks.
pub fn to_error_string(
    fields: ErrorFields,
    payload: &[u8],
    out: &mut [u8],
) -> Result<Lossy, Refusal>
    ensures { (lossy_outcome result, out.new)
        ≡ with_marks (error_marks fields.fields payload.now)
        (writing (length payload.now) (error_text fields.fields payload.now) out.old) }
{
    if INPUT_LIMIT < payload.len() {
        return Err(Refusal::InputTooLong);
    }
    let message = fields.fields[ErrorFields::MESSAGE];
    let code = fields.fields[ErrorFields::CODE];
    // Words in ASCII are their own lossy text.
    match (message, code) {
        (Some(m), Some(c)) => with_code(part(payload, m), part(payload, c), out),
        (Some(m), None) => lossy::write_lossy(part(payload, m), out),
        (None, Some(c)) => with_code(b"error", part(payload, c), out),
        (None, None) => lossy::write_lossy(b"unknown server error", out),
    }
}

// The text of the error that a payload holds, and its marks.
pub fn parse_error_response(payload: &[u8], out: &mut [u8]) -> Result<Lossy, Refusal>
    ensures { (lossy_outcome result, out.new)
        ≡ with_marks (error_marks (fields_of payload.now) payload.now)
        (writing (length payload.now) (error_text (fields_of payload.now) payload.now) out.old) }
{
    let f = ErrorFields::parse(payload);
    to_error_string(f, payload, out)
}

// The code that a server asks for, and where the rest of its request stands.
pub fn parse_auth_request(payload: &[u8]) -> Result<AuthRequest, Refusal>
    ensures { auth_outcome result ≡ auth_of payload.now }
{
    let Some(code) = wire::field::read_i32(payload, 0) else {
        return Err(Refusal::AuthRequestTooShort);
    };
    Ok(AuthRequest {
        code,
        from: 4,
        len: payload.len() - 4,
    })
}

// The codes of authentication requests.
pub mod auth {
    pub const OK: i32 = 0;

    pub const CLEARTEXT_PASSWORD: i32 = 3;

    pub const MD5_PASSWORD: i32 = 5;

    pub const SASL: i32 = 10;

    pub const SASL_CONTINUE: i32 = 11;

    pub const SASL_FINAL: i32 = 12;
}
