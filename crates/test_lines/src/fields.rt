// Numbers in an input of a program, which was read whole: 0 where one is cut.
ghost use Rattle.std.specs.Prelude.{◌≡◌};
ghost use Rattle.test_lines.specs.Fields.{number_at, signed_at};

pub fn byte(s: &[u8], at: usize) -> u8
    ensures { result ≡ number_at 1 s.now at }
{
    wire::field::read_u8(s, at).unwrap_or(0)
}

pub fn half(s: &[u8], at: usize) -> usize
    ensures { result ≡ number_at 2 s.now at }
{
    wire::field::read_u16(s, at).unwrap_or(0) as usize
}

pub fn word(s: &[u8], at: usize) -> usize
    ensures { result ≡ number_at 4 s.now at }
{
    wire::field::read_u32(s, at).unwrap_or(0) as usize
}

pub fn long(s: &[u8], at: usize) -> u64
    ensures { result ≡ number_at 8 s.now at }
{
    wire::field::read_u64(s, at).unwrap_or(0)
}

pub fn signed_word(s: &[u8], at: usize) -> i32
    ensures { result ≡ signed_at 4 s.now at }
{
    wire::field::read_i32(s, at).unwrap_or(0)
}

pub fn signed_long(s: &[u8], at: usize) -> i64
    ensures { result ≡ signed_at 8 s.now at }
{
    wire::field::read_i64(s, at).unwrap_or(0)
}
