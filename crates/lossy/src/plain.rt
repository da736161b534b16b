// The plain path, a part at a time: what the other paths are held against, and measured beside.
ghost use Rattle.std.specs.Prelude.{◌≡◌, length};
ghost use Rattle.error.specs.Writer.{writing};
ghost use Rattle.lossy.specs.Lossy.{lossy_of};
ghost use Rattle.lossy.specs.Marks.{marks_of, with_marks, lossy_outcome};
ghost use Rattle.lossy.specs.Stretch.{stretch_of};

use crate::{Lossy, plain_from, write_by};
use error::Refusal;

// The length of the longest well-formed beginning of a text of any length.
pub fn well_formed_prefix(text: &[u8]) -> usize
    ensures { result ≡ stretch_of text.now }
{
    plain_from(text, 0).end
}

// The lossy text over the front of out, and its marks.
pub fn write_lossy(text: &[u8], out: &mut [u8]) -> Result<Lossy, Refusal>
    ensures { (lossy_outcome result, out.new)
        ≡ with_marks (marks_of text.now) (writing (length text.now) (lossy_of text.now) out.old) }
{
    write_by(text, out, &|from| plain_from(text, from))
}
