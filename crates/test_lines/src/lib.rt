#![tactic(auto)]
// The fields of a program's line, each placed after the last, and what programs do with buffers.
pub mod fields;
pub mod names;
pub mod streams;

ghost use Rattle.std.specs.Prelude.{◌≡◌, ◌<◌, length, IsErr};
ghost use Rattle.test_lines.specs.Line.{sum_next, sum_of, after_of, pieces, number_texts, signed_texts, flag_texts, is_within, outside_texts, part_texts};
ghost use Rattle.test_lines.specs.Line.{bytes_texts, position_texts, dated_texts, spanned_texts, flagged_texts, end_texts};

use lsn::Lsn;
use std::io;
use std::io::{Print, Stdout};

// The sum of a buffer.
pub fn sum(s: &[u8]) -> u64
    ensures { result ≡ sum_of s.now }
{
    let mut h: u64 = 7;
    for &b in s {
        h = next(h, b);
    }
    h
}

fn next(h: u64, b: u8) -> u64
    requires { h < 4294967296 }
    ensures { result ≡ sum_next h b }
{
    (31 * h + b as u64) % 4294967296
}

// The place after what was taken of the bytes between two places.
pub fn after(from: usize, to: usize, taken: usize) -> usize
    ensures { result ≡ after_of from to taken }
{
    if to < from {
        return to;
    }
    from + taken.min(to - from)
}

pub fn number(line: &mut [u8], at: usize, n: u64) -> usize
    ensures { (result, line.new) ≡ pieces line.old at (number_texts n) }
{
    let a = wire::store::place(line, at, b" ");
    text::place_decimal(line, a, n)
}

pub fn long(line: &mut [u8], at: usize, n: i64) -> usize
    ensures { (result, line.new) ≡ pieces line.old at (signed_texts n) }
{
    let a = wire::store::place(line, at, b" ");
    text::place_signed(line, a, n)
}

pub fn flag(line: &mut [u8], at: usize, on: bool) -> usize
    ensures { (result, line.new) ≡ pieces line.old at (flag_texts on) }
{
    if on {
        wire::store::place(line, at, b" 1")
    } else {
        wire::store::place(line, at, b" 0")
    }
}

// Whether a part lies within a slice.
pub fn within(s: &[u8], from: usize, len: usize) -> bool
    ensures { result ≡ is_within s.now from len }
{
    from <= s.len() && len <= s.len() - from
}

// What a line has for a part that does not lie within its slice.
pub fn outside(line: &mut [u8], at: usize) -> usize
    ensures { (result, line.new) ≡ pieces line.old at outside_texts }
{
    wire::store::place(line, at, b" outside")
}

// The bytes that a part names. A part is never clipped.
pub fn part(line: &mut [u8], at: usize, s: &[u8], from: usize, len: usize) -> usize
    ensures { (result, line.new) ≡ pieces line.old at (part_texts s.now from len) }
{
    if !within(s, from, len) {
        return outside(line, at);
    }
    bytes(line, at, &s[from..from + len])
}

// Bytes in hexadecimal, a hyphen for none.
pub fn bytes(line: &mut [u8], at: usize, s: &[u8]) -> usize
    ensures { (result, line.new) ≡ pieces line.old at (bytes_texts s.now) }
{
    if s.is_empty() {
        return wire::store::place(line, at, b" -");
    }
    let a = wire::store::place(line, at, b" ");
    text::place_hex_bytes(line, a, s)
}

pub fn position(line: &mut [u8], at: usize, p: Lsn) -> usize
    ensures { (result, line.new) ≡ pieces line.old at (position_texts p.0) }
{
    let a = wire::store::place(line, at, b" ");
    p.place(line, a)
}

// A letter, a position and a time.
pub fn dated(line: &mut [u8], at: usize, letter: u8, p: Lsn, time: i64) -> usize
    ensures { (result, line.new) ≡ pieces line.old at (dated_texts letter p time) }
{
    let a = wire::store::place(line, at, &[letter]);
    let b = position(line, a, p);
    long(line, b, time)
}

// A letter, two positions and a time.
pub fn spanned(line: &mut [u8], at: usize, letter: u8, p: Lsn, q: Lsn, time: i64) -> usize
    ensures { (result, line.new) ≡ pieces line.old at (spanned_texts letter p q time) }
{
    let a = wire::store::place(line, at, &[letter]);
    let b = position(line, a, p);
    let c = position(line, b, q);
    long(line, c, time)
}

// `M`, a flag and a position.
pub fn flagged(line: &mut [u8], at: usize, on: bool, p: Lsn) -> usize
    ensures { (result, line.new) ≡ pieces line.old at (flagged_texts on p) }
{
    let a = wire::store::place(line, at, b"M");
    let b = flag(line, a, on);
    position(line, b, p)
}

pub fn end(line: &mut [u8], at: usize) -> usize
    ensures { (result, line.new) ≡ pieces line.old at end_texts }
{
    wire::store::place(line, at, b"\n")
}

// Prints the first n bytes of a line. Nothing is printed, and the answer is an error, where the line is shorter.
pub fn print(output: Stdout, line: &[u8], n: usize) -> io::Result<()>
    ensures { length line.now < n → IsErr result }
{
    if line.len() < n {
        return Err(io::Error::from(io::ErrorKind::InvalidInput));
    }
    output.write_all(&line[..n])
}
