#![tactic(auto)]
// Lossy text: what String::from_utf8_lossy makes of a byte string.
mod blocks;
pub mod by_table;
mod lookup;
mod part;
pub mod plain;
mod wide;

ghost use Rattle.std.specs.Prelude.{◌≡◌, ◌+◌, ◌-◌, ◌≤◌, ◌<◌, min, length};
ghost use Rattle.wire.specs.Answer.{maybe};
ghost use Rattle.wire.specs.Bytes.{placed, put};
ghost use Rattle.error.specs.Writer.{writing, counted};
ghost use Rattle.utf8.specs.Automaton.{IsTable};
ghost use Rattle.lossy.specs.Lossy.{lossy_of};
ghost use Rattle.lossy.specs.Marks.{marks_of, measured, measure_of, with_marks, lossy_outcome};
ghost use Rattle.lossy.specs.Stretch.{stretch_of};
ghost use Rattle.lossy.specs.Code.{StretchAt, FindsStretches, FindsParts, WalkedTo};

use error::{INPUT_LIMIT, Refusal};
use part::Part;
use wire::store::NOWHERE;

// How many bytes a lossy text has, and how many marks are put in.
#[derive(Clone, Copy)]
pub struct Lossy {
    pub bytes: usize,
    pub marks: usize,
}

// Where the well-formed parts that begin at a place end, and how long the ill-formed part is that stands there: 0 at the end of the text.
#[derive(Clone, Copy)]
struct Stretch {
    end: usize,
    ill: usize,
}

// How far the text is well-formed from a place on, a part at a time, until a place is reached; `find` finds the part at a place. Inline, as `part_at` and
// `plain_to` are: a call for each character, or for the few of a stretch, would cost as much as what it does.
#[inline]
fn parts_from<F: Fn(usize) -> Part>(text: &[u8], from: usize, stop: usize, find: &F) -> Stretch
    requires { (from ≤ length text.now) × (stop ≤ length text.now) × FindsParts (F.pre find.now) (F.post find.now) text.now }
    ensures { WalkedTo text.now from stop result }
{
    let mut i = from;
    while i < stop {
        let p = find(i);
        if !p.well {
            return Stretch { end: i, ill: p.len };
        }
        i += p.len;
    }
    Stretch { end: i, ill: 0 }
}

// The same with the bytes of a part compared, not looked up in the table, until so many bytes are passed or the text ends.
#[inline]
fn plain_to(text: &[u8], from: usize, bytes: usize) -> Stretch
    requires { from ≤ length text.now }
    ensures { WalkedTo text.now from (from + min (length text.now - from) bytes) result }
{
    let stop = from + (text.len() - from).min(bytes);
    parts_from(text, from, stop, &|i| part::part_at(text, i))
}

fn plain_from(text: &[u8], from: usize) -> Stretch
    requires { from ≤ length text.now }
    ensures { StretchAt text.now from result }
{
    parts_from(text, from, text.len(), &|i| part::part_at(text, i))
}

// What stands where a block of characters of one and two bytes does not pass: blocks of any characters, or else as many bytes as a block has, a part at
// a time, since the text may soon be ill-formed.
fn unblocked(text: &[u8], from: usize) -> Stretch
    requires { from + 32 < length text.now }
    ensures { WalkedTo text.now from (from + 1) result }
{
    let b = wide::passed(text, from);
    if from < b {
        return Stretch { end: b, ill: 0 };
    }
    plain_to(text, from, blocks::BLOCK)
}

// The same by blocks. The last bytes, fewer than a block has, go a part at a time.
fn blocks_from(text: &[u8], from: usize) -> Stretch
    requires { from ≤ length text.now }
    ensures { StretchAt text.now from result }
{
    let mut i = from;
    while i < text.len() {
        let a = blocks::passed(text, i);
        if text.len() - a <= blocks::BLOCK {
            return plain_from(text, a);
        }
        let t = unblocked(text, a);
        if t.ill != 0 {
            return t;
        }
        i = t.end;
    }
    Stretch { end: i, ill: 0 }
}

// How many bytes go a part at a time behind an ill-formed part before blocks are tried: where one is, another may soon follow.
const BEHIND_ILL: usize = 48;

fn behind_ill(text: &[u8], from: usize) -> Stretch
    requires { from ≤ length text.now }
    ensures { StretchAt text.now from result }
{
    let t = plain_to(text, from, BEHIND_ILL);
    if t.ill != 0 {
        return t;
    }
    blocks_from(text, t.end)
}

// How far the text is well-formed from a place on, by blocks; a place that is not the text's beginning stands behind an ill-formed part.
fn stretch_from(text: &[u8], from: usize) -> Stretch
    requires { from ≤ length text.now }
    ensures { StretchAt text.now from result }
{
    if from == 0 {
        return blocks_from(text, from);
    }
    behind_ill(text, from)
}

// The length of the longest well-formed beginning of a text of any length.
pub fn well_formed_prefix(text: &[u8]) -> usize
    ensures { result ≡ stretch_of text.now }
{
    stretch_from(text, 0).end
}

// The length of the lossy text, where that is at most room, and the marks that are put in, by a function that finds the stretch from a place on.
fn measure_by<F: Fn(usize) -> Stretch>(text: &[u8], room: usize, stretch: &F) -> Option<Lossy>
    requires { FindsStretches (F.pre stretch.now) (F.post stretch.now) text.now }
    ensures { measure_of result ≡ measured room (length (lossy_of text.now)) (marks_of text.now) }
{
    let mut bytes: usize = 0;
    let mut marks: usize = 0;
    let mut i: usize = 0;
    while i < text.len() {
        let t = stretch(i);
        let n = t.end - i;
        if room - bytes < n {
            return None;
        }
        if t.ill == 0 {
            bytes += n;
            return Some(Lossy { bytes, marks });
        }
        if room - bytes - n < 3 {
            return None;
        }
        bytes += n + 3;
        marks += 1;
        i = t.end + t.ill;
    }
    Some(Lossy { bytes, marks })
}

// The length of the lossy text, where that is at most room, and the marks that are put in.
pub fn measure(text: &[u8], room: usize) -> Option<Lossy>
    ensures { measure_of result ≡ measured room (length (lossy_of text.now)) (marks_of text.now) }
{
    measure_by(text, room, &|from| stretch_from(text, from))
}

// The length of the lossy text alone.
pub fn count(text: &[u8], room: usize) -> Option<usize>
    ensures { maybe result ≡ counted room (length (lossy_of text.now)) }
{
    let length = measure(text, room)?;
    Some(length.bytes)
}

// The lossy text over out from `to` on: a well-formed stretch as it is, one mark for what ends it, and so on.
fn fill<F: Fn(usize) -> Stretch>(out: &mut [u8], to: usize, text: &[u8], stretch: &F)
    requires { (to + length (lossy_of text.now) ≤ length out.old) × FindsStretches (F.pre stretch.now) (F.post stretch.now) text.now }
    ensures { out.new ≡ put out.old to (lossy_of text.now) }
{
    let mut at = to;
    let mut i: usize = 0;
    while i < text.len() {
        let t = stretch(i);
        let end = t.end;
        at = wire::store::place(out, at, &text[i..end]);
        if t.ill == 0 {
            return;
        }
        at = wire::store::place(out, at, b"\xEF\xBF\xBD");
        i = end + t.ill;
    }
}

// The place after the lossy text, which is written at `to`; where it does not fit, NOWHERE, and nothing is written.
pub fn place(out: &mut [u8], to: usize, text: &[u8]) -> usize
    ensures { (result, out.new) ≡ placed out.old to (lossy_of text.now) }
{
    if out.len() < to {
        return NOWHERE;
    }
    let Some(n) = count(text, out.len() - to) else {
        return NOWHERE;
    };
    fill(out, to, text, &|from| stretch_from(text, from));
    to + n
}

// The lossy text over the front of out, and its marks. A text without marks is well-formed to its end, and copied whole without a second walk.
fn write_by<F: Fn(usize) -> Stretch>(
    text: &[u8],
    out: &mut [u8],
    stretch: &F,
) -> Result<Lossy, Refusal>
    requires { FindsStretches (F.pre stretch.now) (F.post stretch.now) text.now }
    ensures { (lossy_outcome result, out.new)
        ≡ with_marks (marks_of text.now) (writing (length text.now) (lossy_of text.now) out.old) }
{
    if INPUT_LIMIT < text.len() {
        return Err(Refusal::InputTooLong);
    }
    let Some(length) = measure_by(text, out.len(), stretch) else {
        return Err(Refusal::OutputTooShort);
    };
    if length.marks == 0 {
        wire::store::place(out, 0, text);
        return Ok(length);
    }
    fill(out, 0, text, stretch);
    Ok(length)
}

// The lossy text over the front of out, and its marks.
pub fn write_lossy(text: &[u8], out: &mut [u8]) -> Result<Lossy, Refusal>
    ensures { (lossy_outcome result, out.new)
        ≡ with_marks (marks_of text.now) (writing (length text.now) (lossy_of text.now) out.old) }
{
    write_by(text, out, &|from| stretch_from(text, from))
}
