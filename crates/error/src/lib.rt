#![tactic(auto)]
// The refusals 1 to 25, the Rust's kind of error for each, and the count of lent names that refusal 25 limits. A crate whose own refusals have
// further numbers declares an enum of its own, and offers a number and a kind for each of its cases as `Refusal` does here.
ghost use Rattle.std.specs.Prelude.{◌≡◌, eqb};
ghost use Rattle.wire.specs.Answer.{maybe};
ghost use Rattle.error.specs.Inputs.{total};
ghost use Rattle.error.specs.Writer.{counted};
ghost use Rattle.error.specs.Refusal.{number_of, kind_of, kind_at, kind_number, io, protocol, server, too_large};

#[derive(Clone, Copy, PartialEq, Eq)]
pub enum Refusal {
    IntervalTooLong = 1, // an interval above its limit
    RunEnded, // the run has ended
    PayloadBufferTooShort, // the payload buffer is shorter than the limit
    OutputTooShort, // the output is shorter than needed
    MomentOutOfOrder, // the moment is outside its range or before the last accepted one
    InvalidLength, // a header's length is below 4
    MessageTooLarge, // the payload is over the limit
    EofInHeader, // the input ended in a header
    EofInPayload, // the input ended in a payload
    EmptyCopyData, // a CopyData without a byte
    XLogDataTooShort, // an XLogData with under 24 bytes after its letter
    KeepaliveTooShort, // a keepalive with under 17 bytes after its letter
    UnknownCopyData, // a CopyData of another letter
    TruncatedI8, // a field of 8 bits is cut
    TruncatedI32, // a field of 32 bits is cut
    TruncatedI64, // a field of 64 bits is cut
    UnterminatedPrefix, // a Message's prefix has no zero byte
    ContentTooShort, // a Message's content is short, or its length negative
    ServerError, // the server sent an ErrorResponse
    MalformedDataRow, // a DataRow is malformed
    AuthRequestTooShort, // an authentication request has under 4 bytes
    MissingSlash, // a position text has no slash
    InvalidHighPart, // the part before the slash is not 1 to 8 hexadecimal digits
    InvalidLowPart, // the part after the slash is not 1 to 8 hexadecimal digits
    InputTooLong, // the call's lent inputs are together above their limit
}

// The kinds of the Rust's PgWireError that refusals have, its ParseLsnError, and Usage, which only the caller's own inputs bring about.
#[derive(Clone, Copy, PartialEq, Eq)]
pub enum Kind {
    Usage = 1,
    Io,
    Protocol,
    Server,
    MessageTooLarge,
    ParseLsn,
}

// The most bytes that a writer's lent inputs may have together.
pub const INPUT_LIMIT: usize = 1048576;

impl Refusal {
    // The refusal's number.
    pub fn number(self) -> u8
        ensures { result ≡ number_of self }
    {
        self as u8
    }

    pub fn kind(self) -> Kind
        ensures { kind_number result ≡ kind_of self }
    {
        match self {
            Refusal::IntervalTooLong
            | Refusal::RunEnded
            | Refusal::PayloadBufferTooShort
            | Refusal::OutputTooShort
            | Refusal::MomentOutOfOrder
            | Refusal::InputTooLong => Kind::Usage,
            Refusal::EofInHeader | Refusal::EofInPayload => Kind::Io,
            Refusal::ServerError => Kind::Server,
            Refusal::MessageTooLarge => Kind::MessageTooLarge,
            Refusal::MissingSlash | Refusal::InvalidHighPart | Refusal::InvalidLowPart =>
                Kind::ParseLsn,
            Refusal::InvalidLength
            | Refusal::EmptyCopyData
            | Refusal::XLogDataTooShort
            | Refusal::KeepaliveTooShort
            | Refusal::UnknownCopyData
            | Refusal::TruncatedI8
            | Refusal::TruncatedI32
            | Refusal::TruncatedI64
            | Refusal::UnterminatedPrefix
            | Refusal::ContentTooShort
            | Refusal::MalformedDataRow
            | Refusal::AuthRequestTooShort => Kind::Protocol,
        }
    }

    pub fn is_kind(self, k: Kind) -> bool
        ensures { result ≡ eqb (kind_of self) (kind_number k) }
    {
        self.kind() == k
    }

    pub fn is_io(self) -> bool
        ensures { result ≡ eqb (kind_of self) io }
    {
        self.is_kind(Kind::Io)
    }

    pub fn is_protocol(self) -> bool
        ensures { result ≡ eqb (kind_of self) protocol }
    {
        self.is_kind(Kind::Protocol)
    }

    pub fn is_server(self) -> bool
        ensures { result ≡ eqb (kind_of self) server }
    {
        self.is_kind(Kind::Server)
    }

    pub fn is_message_too_large(self) -> bool
        ensures { result ≡ eqb (kind_of self) too_large }
    {
        self.is_kind(Kind::MessageTooLarge)
    }

    // Whether a new connection may help.
    pub fn is_transient(self) -> bool
        ensures { result ≡ eqb (kind_of self) io }
    {
        self.kind().is_transient()
    }
}

impl Kind {
    // A number of its own for each kind, from 1 on, so that 0 can stand for none.
    pub fn number(self) -> u8
        ensures { result ≡ kind_number self }
    {
        self as u8
    }

    // Whether a new connection may help. The Rust has two such kinds, and no refusal is of the other, a task's.
    pub fn is_transient(self) -> bool
        ensures { result ≡ eqb (kind_number self) io }
    {
        self == Kind::Io
    }
}

// The kinds' numbers by the refusals' numbers, from 0 on, which is no refusal.
const KINDS: [u8; 26] = [
    0, 1, 1, 1, 1, 1, 3, 5, 2, 2, 3, 3, 3, 3, 3, 3, 3, 3, 3, 4, 3, 3, 6, 6, 6, 1,
];

// The number of the kind that a refusal's number has, 0 where no refusal of this crate has the number.
pub fn kind_by_number(number: u8) -> u8
    ensures { result ≡ kind_at number }
{
    KINDS.get(number as usize).copied().unwrap_or(0)
}

// The bytes of all names together, where they are at most room.
pub fn inputs_len(names: &[&[u8]], room: usize) -> Option<usize>
    ensures { maybe result ≡ counted room (total names.now) }
{
    let mut sum: usize = 0;
    for s in names {
        if room - sum < s.len() {
            return None;
        }
        sum += s.len();
    }
    Some(sum)
}
