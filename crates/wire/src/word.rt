// A flag as a word of 64 bits.
ghost use Rattle.std.specs.Prelude.{◌≡◌};
ghost use Rattle.wire.specs.Bytes.{flag_word};

// 1 for true, 0 for false.
pub fn flag(b: bool) -> u64
    ensures { result ≡ flag_word b }
{
    u64::from(b)
}
