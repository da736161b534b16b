// Kinds of refusals by their numbers, and after which of them a new connection may help. SCOPE 7.4.
// Kinds, refusals and flags are numbers here: the C interface.
ghost use Rattle.std.specs.Prelude.{◌≡◌};
ghost use Rattle.ffi_answers.specs.Kinds.{is_between, kind_by, transient_at};

use ffi_words::layout;
use wire::word::flag;

// Whether a number is one of a range, its first and last included.
fn is_between(first: u64, last: u64, refusal: u64) -> bool
    ensures { result ≡ is_between first last refusal }
{
    first <= refusal && refusal <= last
}

pub fn kind_word(refusal: u64) -> u64
    ensures { result ≡ kind_by refusal }
{
    if is_between(26, 30, refusal) {
        return layout::KIND_PROTOCOL;
    }
    if is_between(31, 35, refusal) {
        return layout::KIND_USAGE;
    }
    if 255 < refusal {
        return layout::KIND_NONE;
    }
    error::kind_by_number(refusal as u8) as u64
}

pub fn transient_word(refusal: u64) -> u64
    ensures { result ≡ transient_at refusal }
{
    flag(kind_word(refusal) == layout::KIND_IO)
}
