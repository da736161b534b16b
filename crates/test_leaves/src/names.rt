// Records that hold names, each 2 bytes of length and its bytes: an option value, or a startup message after its version.
ghost use Rattle.std.specs.Prelude.{◌<◌, length, IfSome};

use crate::writers::{Answer, written};
use test_lines::fields;

// As many names as a record of 65,536 bytes can have.
const MOST: usize = 32768;

// The name at the front and what stands after it; none where it is cut.
fn first_name(input: &[u8]) -> Option<(&[u8], &[u8])>
    ensures { IfSome result (λ p. length p.1.now < length input.now) }
{
    let (len, rest) = input.split_at_checked(2)?;
    rest.split_at_checked(fields::half(len, 0))
}

fn with_names(kind: u8, input: &[u8], names: &[&[u8]], out: &mut [u8]) -> Answer {
    if kind == b'o' {
        return written(config::to_option_value(names, out));
    }
    written(frontend::write_startup(fields::signed_word(input, 0), names, out))
}

// None where the names are cut, which is malformed.
pub(crate) fn named(kind: u8, input: &[u8], out: &mut [u8]) -> Option<Answer> {
    let first = if kind == b'o' { 0 } else { 4 };
    let mut rest = input.get(first..)?;
    let mut names = [&input[..0]; MOST];
    let mut n = 0;
    while !rest.is_empty() {
        if n == MOST {
            return None;
        }
        let (name, after) = first_name(rest)?;
        names[n] = name;
        n += 1;
        rest = after;
    }
    Some(with_names(kind, input, &names[..n], out))
}
