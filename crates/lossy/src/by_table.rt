// The path that goes by the constant table throughout: each byte of a text, however short, is looked up in it, one after the other. A call makes the table
// once and lends it to all that it calls.
ghost use Rattle.std.specs.Prelude.{◌≡◌, ◌≤◌, length};
ghost use Rattle.wire.specs.Bytes.{put};
ghost use Rattle.error.specs.Writer.{writing};
ghost use Rattle.utf8.specs.Automaton.{IsTable};
ghost use Rattle.lossy.specs.Lossy.{lossy_of};
ghost use Rattle.lossy.specs.Marks.{marks_of, measured, measure_of, with_marks, lossy_outcome};
ghost use Rattle.lossy.specs.Stretch.{stretch_of};
ghost use Rattle.lossy.specs.Code.{StretchAt};

use crate::{Lossy, Stretch, lookup, parts_from, write_by};
use error::Refusal;

// How far the text is well-formed from a place on, by the lent table.
fn stretch_in(text: &[u8], from: usize, table: &[u8; 2048]) -> Stretch
    requires { (from ≤ length text.now) × IsTable table.now }
    ensures { StretchAt text.now from result }
{
    parts_from(text, from, text.len(), &|i| lookup::part_in(text, i, table))
}

// The length of the longest well-formed beginning of a text of any length.
pub fn well_formed_prefix(text: &[u8]) -> usize
    ensures { result ≡ stretch_of text.now }
{
    let table = utf8::states();
    stretch_in(text, 0, &table).end
}

// The lossy text over the front of out, and its marks.
pub fn write_lossy(text: &[u8], out: &mut [u8]) -> Result<Lossy, Refusal>
    ensures { (lossy_outcome result, out.new)
        ≡ with_marks (marks_of text.now) (writing (length text.now) (lossy_of text.now) out.old) }
{
    let table = utf8::states();
    write_by(text, out, &|from| stretch_in(text, from, &table))
}
