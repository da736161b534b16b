#![tactic(auto)]
// Prints the states of the crate `utf8` after each byte, computed from the Unicode Standard's Table 3-7 "Well-Formed UTF-8 Byte Sequences": the entry
// of a state and a byte is the one at 256 times the state and the byte.
ghost use Rattle.std.specs.Prelude.{IfSome, ◌≤◌, ◌<◌};

use std::io;

// From the first byte to the last.
type Range = (u8, u8);

const TAIL: Range = (0x80, 0xBF);

// The table's rows: the ranges of a first, a second, a third and a fourth byte.
const ROWS: [&[Range]; 9] = [
    &[(0x00, 0x7F)],
    &[(0xC2, 0xDF), TAIL],
    &[(0xE0, 0xE0), (0xA0, 0xBF), TAIL],
    &[(0xE1, 0xEC), TAIL, TAIL],
    &[(0xED, 0xED), (0x80, 0x9F), TAIL],
    &[(0xEE, 0xEF), TAIL, TAIL],
    &[(0xF0, 0xF0), (0x90, 0xBF), TAIL, TAIL],
    &[(0xF1, 0xF3), TAIL, TAIL, TAIL],
    &[(0xF4, 0xF4), (0x80, 0x8F), TAIL, TAIL],
];

// The ranges that are due in each state: none between characters; one, two, three continuation bytes; after E0, ED, F0, F4.
const DUE: [&[Range]; 8] = [
    &[],
    &[TAIL],
    &[TAIL, TAIL],
    &[TAIL, TAIL, TAIL],
    &[(0xA0, 0xBF), TAIL],
    &[(0x80, 0x9F), TAIL],
    &[(0x90, 0xBF), TAIL, TAIL],
    &[(0x80, 0x8F), TAIL, TAIL],
];

fn has(range: Range, byte: u8) -> bool {
    range.0 <= byte && byte <= range.1
}

// The state after a byte of a row or of a state whose ranges these are; none where the byte is ill-formed there.
fn after(ranges: &[Range], byte: u8) -> Option<usize>
    ensures { IfSome result (λ state. state < 8) }
{
    let (first, rest) = ranges.split_first()?;
    if !has(*first, byte) {
        return None;
    }
    DUE.iter().position(|due| *due == rest)
}

// The state after a byte in a state whose ranges these are; 8 where the byte is ill-formed there.
fn entry(due: &[Range], byte: u8) -> usize
    ensures { result ≤ 8 }
{
    let next = if due.is_empty() {
        ROWS.iter().find_map(|row| after(row, byte))
    } else {
        after(due, byte)
    };
    next.unwrap_or(DUE.len())
}

// Thirty-two entries stand in a line. An entry is one digit, so that it is a byte, and needs no formatting.
fn main(rt: HostRuntime) -> io::Result<()> {
    for due in DUE {
        for byte in 0..=255 {
            let end = if byte % 32 == 31 { b'\n' } else { b' ' };
            rt.write_all(&[b'0' + entry(due, byte) as u8, b',', end])?;
        }
    }
    Ok(())
}
