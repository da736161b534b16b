// A progress cell for a host: four lent words. Any words are the words of some cell. SCOPE 9.3, 4.1.
// Beside the words at exit a contract has the cell that they stand for, so that calls over words are calls over cells.
ghost use Rattle.std.specs.Prelude.{◌≡◌};
ghost use Rattle.ffi_words.specs.Cells.{cell_standing, cell_new_call, cell_load_call, cell_pending_since_call};
ghost use Rattle.ffi_words.specs.Cells.{cell_raise_call, cell_take_signal_call, cell_take_pending_call, cell_carry_pending_call};

use ffi_words::cell::{cell_of, cell_words};
use ffi_words::layout;
use lsn::Lsn;
use moment::Moment;
use progress::ProgressCell;
use wire::word::flag;

// ---- a progress cell: it has one position, where a run has four files; these calls are for a host that keeps a cell of its own. Moments are
// nanoseconds, 0 is none

// A new cell. With timing it keeps the moment of the first raise that no status has covered.
#[unsafe(no_mangle)]
pub extern "C" fn rufflesquash_cell_new(
    start: u64,
    timed: bool,
    cell: &mut [u64; layout::CELL_WORDS],
)
    ensures { cell_standing cell.new ≡ cell_new_call start timed }
{
    let new = ProgressCell::new(Lsn(start), timed);
    *cell = cell_words(new);
}

// The position.
#[unsafe(no_mangle)]
pub extern "C" fn rufflesquash_cell_load(cell: &[u64; layout::CELL_WORDS]) -> u64
    ensures { result ≡ cell_load_call cell.now }
{
    let c = cell_of(*cell);
    c.load().0
}

// The pending moment.
#[unsafe(no_mangle)]
pub extern "C" fn rufflesquash_cell_pending_since(cell: &[u64; layout::CELL_WORDS]) -> u64
    ensures { result ≡ cell_pending_since_call cell.now }
{
    let c = cell_of(*cell);
    c.pending_since().0
}

// A report of a position at a moment. Answers 1 where the signal is new, else 0.
#[unsafe(no_mangle)]
pub extern "C" fn rufflesquash_cell_raise(
    cell: &mut [u64; layout::CELL_WORDS],
    position: u64,
    moment: u64,
) -> u64
    ensures { (result, cell_standing cell.new) ≡ cell_raise_call cell.old position moment }
{
    let before = cell_of(*cell);
    let raised = before.raise(Lsn(position), Moment(moment));
    let after = raised.cell;
    *cell = cell_words(after);
    flag(raised.wake)
}

// Clears the signal. Answers the position.
#[unsafe(no_mangle)]
pub extern "C" fn rufflesquash_cell_take_signal(cell: &mut [u64; layout::CELL_WORDS]) -> u64
    ensures { (result, cell_standing cell.new) ≡ cell_take_signal_call cell.old }
{
    let before = cell_of(*cell);
    let looked = before.take_signal();
    let after = looked.cell;
    *cell = cell_words(after);
    looked.applied.0
}

// A status was sent with a position that was read at a moment. Answers the moment that was pending.
#[unsafe(no_mangle)]
pub extern "C" fn rufflesquash_cell_take_pending(
    cell: &mut [u64; layout::CELL_WORDS],
    sent: u64,
    loaded_at: u64,
) -> u64
    ensures { (result, cell_standing cell.new) ≡ cell_take_pending_call cell.old sent loaded_at }
{
    let before = cell_of(*cell);
    let reported = before.take_pending(Lsn(sent), Moment(loaded_at));
    let after = reported.cell;
    *cell = cell_words(after);
    reported.since.0
}

// A pending moment from an earlier session: the older one counts.
#[unsafe(no_mangle)]
pub extern "C" fn rufflesquash_cell_carry_pending(cell: &mut [u64; layout::CELL_WORDS], since: u64)
    ensures { cell_standing cell.new ≡ cell_carry_pending_call cell.old since }
{
    let before = cell_of(*cell);
    let after = before.carry_pending(Moment(since));
    *cell = cell_words(after);
}
