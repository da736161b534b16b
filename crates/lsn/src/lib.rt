#![tactic(auto)]
// Log positions.
mod hex;

ghost use Rattle.std.specs.Prelude.{◌≡◌, eqb, length};
ghost use Rattle.wire.specs.Bytes.{placed};
ghost use Rattle.error.specs.Writer.{writing, outcome};
ghost use Rattle.lsn.specs.Position.{position_of, parse_outcome, display_of, is_below};

use error::Refusal;
use wire::store::NOWHERE;

// A position has two halves of 32 bits.
const HALF: u64 = 4294967296;

// A position in the server's log.
#[derive(Clone, Copy, PartialEq, Eq, PartialOrd, Ord)]
pub struct Lsn(pub u64);

impl Lsn {
    pub const ZERO: Lsn = Lsn(0);

    pub fn from_u64(value: u64) -> Lsn
        ensures { result.0 ≡ value }
    {
        Lsn(value)
    }

    pub fn as_u64(self) -> u64
        ensures { result ≡ self.0 }
    {
        self.0
    }

    pub fn is_zero(self) -> bool
        ensures { result ≡ eqb self.0 0 }
    {
        self == Lsn::ZERO
    }

    // The only comparison of positions.
    pub fn is_below(self, other: Lsn) -> bool
        ensures { result ≡ is_below self other }
    {
        self < other
    }

    // The position that a text spells. The slash comes first, then the high part, so that the first fault gives the refusal.
    pub fn parse(s: &[u8]) -> Result<Lsn, Refusal>
        ensures { parse_outcome result ≡ position_of s.now }
    {
        let Some(i) = wire::find::find(s, b'/') else {
            return Err(Refusal::MissingSlash);
        };
        let Some(hi) = hex::part(&s[..i]) else {
            return Err(Refusal::InvalidHighPart);
        };
        let Some(lo) = hex::part(&s[i + 1..]) else {
            return Err(Refusal::InvalidLowPart);
        };
        Ok(Lsn(hi * HALF + lo))
    }

    // How many bytes Display has.
    pub fn text_len(self) -> usize
        ensures { result ≡ length (display_of self.0) }
    {
        text::hex_len(self.0 / HALF) + 1 + text::hex_len(self.0 % HALF)
    }

    // The place after Display, which is written at `to`; where it does not fit, NOWHERE, and nothing is written.
    pub fn place(self, out: &mut [u8], to: usize) -> usize
        ensures { (result, out.new) ≡ placed out.old to (display_of self.0) }
    {
        if out.len() < to {
            return NOWHERE;
        }
        if out.len() - to < self.text_len() {
            return NOWHERE;
        }
        let a = text::place_hex(out, to, self.0 / HALF);
        let b = wire::store::place(out, a, b"/");
        text::place_hex(out, b, self.0 % HALF)
    }

    // The Rust's Display.
    pub fn display(self, out: &mut [u8]) -> Result<usize, Refusal>
        ensures { (outcome result, out.new) ≡ writing 0 (display_of self.0) out.old }
    {
        let n = self.text_len();
        if out.len() < n {
            return Err(Refusal::OutputTooShort);
        }
        self.place(out, 0);
        Ok(n)
    }
}
