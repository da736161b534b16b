// The touched files as a host has them: the event by its kind and its data, the files as a number. SCOPE 9.7.
ghost use Rattle.std.specs.Prelude.{◌≡◌, List, ℕ};
ghost use Rattle.touched.specs.Touched.{tells_by};
ghost use Rattle.touched.specs.Words.{told_by, touched_call, bits_by};

use crate::{Files, Tells};
use progress::files::FileRefusal;

// The kinds of two events, as the words of an answer have them (SCOPE 9.2).
const BEGIN: u64 = 2;

const XLOG_DATA: u64 = 5;

// The refusal's number, 0 for none, and the files after the call.
#[derive(Clone, Copy)]
pub struct Reply {
    pub refusal: u64,
    pub bits: u64,
}

// Every other number is an event that tells nothing, or none.
fn tells_by(kind: u64) -> Tells
    ensures { (s : List ℕ) → tells_by result s ≡ told_by kind s }
{
    if kind == BEGIN {
        return Tells::Begin;
    }
    if kind == XLOG_DATA {
        return Tells::Data;
    }
    Tells::Nothing
}

// The bits of the files after an event, by its kind and its data.
pub fn bits_after(
    identifiers: &[u32],
    files: &[u64],
    kind: u64,
    data: &[u8],
    bits: u64,
) -> Result<u64, FileRefusal>
    ensures { bits_by bits result ≡ touched_call identifiers.now files.now kind «data».now bits }
{
    let before = Files::of_bits(bits);
    let tells = tells_by(kind);
    let after = crate::after(identifiers, files, tells, data, before)?;
    Ok(after.bits())
}

// The same as words. Refused, the bits are all as they were, those above the four too.
pub fn after_event(identifiers: &[u32], files: &[u64], kind: u64, data: &[u8], bits: u64) -> Reply
    ensures { (result.refusal, result.bits) ≡ touched_call identifiers.now files.now kind «data».now bits }
{
    match bits_after(identifiers, files, kind, data, bits) {
        Ok(after) => Reply {
            refusal: 0,
            bits: after,
        },
        Err(r) => Reply {
            refusal: r.number() as u64,
            bits,
        },
    }
}
