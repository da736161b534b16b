// Names one after the other in an input of a program, each 2 bytes of length and its bytes.
ghost use Rattle.std.specs.Prelude.{◌≡◌, ◌≤◌, length};
ghost use Rattle.test_lines.specs.Fields.{name_at};

use crate::fields;

#[derive(Clone, Copy)]
pub struct Name {
    pub from: usize,
    pub to: usize,
}

// The name at a place, as far as the input has it.
pub fn name_at(s: &[u8], at: usize) -> Name
    ensures { (result ≡ name_at s.now at) × (result.from ≤ result.to) × (result.to ≤ length s.now) }
{
    let n = s.len();
    let a = at.min(n);
    let from = a + 2_usize.min(n - a);
    let to = from + fields::half(s, a).min(n - from);
    Name { from, to }
}
