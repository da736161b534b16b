#![tactic(auto)]
// What of the Rust's configuration is bytes: the value of an option that lists names.
ghost use Rattle.std.specs.Prelude.{◌≡◌, ◌+◌, ◌≤◌, length};
ghost use Rattle.wire.specs.Answer.{maybe};
ghost use Rattle.wire.specs.Bytes.{placed};
ghost use Rattle.error.specs.Inputs.{total};
ghost use Rattle.error.specs.Writer.{writing, outcome, counted};
ghost use Rattle.config.specs.Code.{comma_at};
ghost use Rattle.config.specs.OptionValue.{quoted, doubled, option_value};

use error::{INPUT_LIMIT, Refusal};
use wire::store::NOWHERE;

// How many bytes a byte of a name takes.
fn width(c: u8) -> usize
    ensures { result ≡ length (quoted c) }
{
    if c == b'\'' { 2 } else { 1 }
}

fn count_name(s: &[u8], room: usize) -> Option<usize>
    ensures { maybe result ≡ counted room (length (doubled s.now)) }
{
    let mut need: usize = 0;
    for c in s {
        let w = width(*c);
        if room - need < w {
            return None;
        }
        need += w;
    }
    Some(need)
}

// How many bytes stand before the i-th name.
fn comma(i: usize) -> usize
    ensures { result ≡ length (comma_at i) }
{
    if i == 0 { 0 } else { 1 }
}

// The length of the value, where that is at most room.
pub fn count(names: &[&[u8]], room: usize) -> Option<usize>
    ensures { maybe result ≡ counted room (length (option_value names.now)) }
{
    let mut need: usize = 0;
    for (i, name) in names.iter().enumerate() {
        let w = comma(i);
        if room - need < w {
            return None;
        }
        need += w + count_name(name, room - need - w)?;
    }
    Some(need)
}

// The place after a byte of a name.
fn put_byte(out: &mut [u8], at: usize, c: u8) -> usize
    requires { at + length (quoted c) ≤ length out.old }
    ensures { (result, out.new) ≡ placed out.old at (quoted c) }
{
    if c == b'\'' {
        out[at] = c;
        out[at + 1] = c;
        return at + 2;
    }
    out[at] = c;
    at + 1
}

fn fill_name(out: &mut [u8], at: usize, s: &[u8]) -> usize
    requires { at + length (doubled s.now) ≤ length out.old }
    ensures { (result, out.new) ≡ placed out.old at (doubled s.now) }
{
    let mut to = at;
    for c in s {
        to = put_byte(out, to, *c);
    }
    to
}

// The place after what stands before the i-th name.
fn put_comma(out: &mut [u8], at: usize, i: usize) -> usize
    requires { at + length (comma_at i) ≤ length out.old }
    ensures { (result, out.new) ≡ placed out.old at (comma_at i) }
{
    if i == 0 {
        return at;
    }
    out[at] = b',';
    at + 1
}

fn fill(out: &mut [u8], at: usize, names: &[&[u8]]) -> usize
    requires { at + length (option_value names.now) ≤ length out.old }
    ensures { (result, out.new) ≡ placed out.old at (option_value names.now) }
{
    let mut to = at;
    for (i, name) in names.iter().enumerate() {
        let from = put_comma(out, to, i);
        to = fill_name(out, from, name);
    }
    to
}

// The place after the value, which is written at `to`; where it does not fit, NOWHERE, and nothing is written.
pub fn place(out: &mut [u8], to: usize, names: &[&[u8]]) -> usize
    ensures { (result, out.new) ≡ placed out.old to (option_value names.now) }
{
    if out.len() < to {
        return NOWHERE;
    }
    let Some(_) = count(names, out.len() - to) else {
        return NOWHERE;
    };
    fill(out, to, names)
}

pub fn to_option_value(names: &[&[u8]], out: &mut [u8]) -> Result<usize, Refusal>
    ensures { (outcome result, out.new) ≡ writing (total names.now) (option_value names.now) out.old }
{
    let Some(_) = error::inputs_len(names, INPUT_LIMIT) else {
        return Err(Refusal::InputTooLong);
    };
    let Some(_) = count(names, out.len()) else {
        return Err(Refusal::OutputTooShort);
    };
    Ok(fill(out, 0, names))
}
