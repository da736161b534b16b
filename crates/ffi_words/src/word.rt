// One word: flags, bytes and halves.
// Kinds, refusals and flags are numbers here: the C interface.
ghost use Rattle.std.specs.Prelude.{◌≡◌, ◌<◌, ◌%◌, ◌^◌};
ghost use Rattle.ffi_words.specs.Words.{flag_of, byte_of};

// Every word but 0 is true.
pub fn flag_of(n: u64) -> bool
    ensures { result ≡ flag_of n }
{
    n != 0
}

pub(crate) fn byte_of(n: u64) -> u8
    ensures { result ≡ byte_of n }
{
    (n % 256) as u8
}

pub(crate) fn wide(b: u8) -> u64
    ensures { (result ≡ b) × (b < 256) }
{
    b as u64
}

pub(crate) fn low_half(n: u64) -> u32
    ensures { result ≡ n % 2 ^ 32 }
{
    (n % 4294967296) as u32
}
