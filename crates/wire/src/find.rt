// The search for a byte.
ghost use Rattle.std.specs.Prelude.{◌≡◌, ◌==◌, position};
ghost use Rattle.wire.specs.Answer.{maybe};
ghost use Rattle.wire.specs.Find.{index_of};

// The first place at which b stands, in the library's words.
fn place_of(s: &[u8], b: u8) -> Option<usize>
    ensures { result ≡ position (λ x. x == b) s.now }
{
    s.iter().position(|x| *x == b)
}

// The first place at which b stands.
pub fn find(s: &[u8], b: u8) -> Option<usize>
    ensures { maybe result ≡ index_of b s.now }
{
    place_of(s, b)
}

pub fn find_zero(s: &[u8]) -> Option<usize>
    ensures { maybe result ≡ index_of 0 s.now }
{
    find(s, 0)
}
