// A progress cell as four words. Any words are the words of some cell. SCOPE 9.3, 4.1.
// Kinds, refusals and flags are numbers here: the C interface.
ghost use Rattle.std.specs.Prelude.{◌≡◌};
ghost use Rattle.ffi_words.specs.Words.{cell_of, cell_words};

use crate::layout;
use crate::word::flag_of;
use lsn::Lsn;
use moment::Moment;
use progress::ProgressCell;
use wire::word::flag;

pub fn cell_of(w: [u64; layout::CELL_WORDS]) -> ProgressCell
    ensures { result ≡ cell_of w }
{
    ProgressCell {
        applied: Lsn(w[layout::CELL_APPLIED]),
        signalled: flag_of(w[layout::CELL_SIGNALLED]),
        pending_since: Moment(w[layout::CELL_PENDING_SINCE]),
        timed: flag_of(w[layout::CELL_TIMED]),
    }
}

// The words stand for the cell that they were made of.
pub fn cell_words(c: ProgressCell) -> [u64; layout::CELL_WORDS]
    ensures { (result ≡ cell_words c) × (cell_of result ≡ c) }
{
    [
        c.applied.0,
        flag(c.signalled),
        c.pending_since.0,
        flag(c.timed),
    ]
}
