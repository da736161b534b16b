// Hexadecimal digits, read.
ghost use Rattle.std.specs.Prelude.{◌≡◌, ◌<◌};
ghost use Rattle.wire.specs.Answer.{maybe, value_of};
ghost use Rattle.lsn.specs.Hex.{digit_of, hex_part};

// A digit's value: 0 to 9, A to F, a to f.
fn digit(c: u8) -> Option<u32>
    ensures { (maybe result ≡ digit_of c) × (value_of result < 16) }
{
    char::from(c).to_digit(16)
}

// One part of a position text: 1 to 8 digits. Eight of them stay below 2^32, so that no turn can pass 64 bits.
pub(crate) fn part(s: &[u8]) -> Option<u64>
    ensures { maybe result ≡ hex_part s.now }
{
    if s.is_empty() || 8 < s.len() {
        return None;
    }
    let mut v: u64 = 0;
    for c in s {
        v = v * 16 + u64::from(digit(*c)?);
    }
    Some(v)
}
