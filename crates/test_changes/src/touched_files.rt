// The line of a list, bits and events: what each event answers. It can be longer than its buffer, so it is printed in pieces.
ghost use Rattle.std.specs.Prelude.{◌<◌, length, IfSome};

use std::io::Stdout;
use test_lines::fields;

// How long a piece gets before it is printed.
const PIECE: usize = 65536;

// The event at the front as a host hands it on, its kind and its data, and what stands after it; none where it is malformed. Data have their length in 2
// bytes before them.
fn first_event(input: &[u8]) -> Option<(u64, &[u8], &[u8])>
    ensures { IfSome result (λ e. length e.2.now < length input.now) }
{
    let (kind, rest) = input.split_at_checked(1)?;
    match fields::byte(kind, 0) {
        0 => Some((2, &input[..0], rest)),
        1 => {
            let (len, rest) = rest.split_at_checked(2)?;
            let (bytes, rest) = rest.split_at_checked(fields::half(len, 0))?;
            Some((5, bytes, rest))
        }
        2 => Some((3, &input[..0], rest)),
        _ => None,
    }
}

// Whether the input is events to its end.
fn are_events(input: &[u8]) -> bool {
    let mut rest = input;
    while !rest.is_empty() {
        let Some((_, _, after)) = first_event(rest) else {
            return false;
        };
        rest = after;
    }
    true
}

// ` refusal:bits`
fn answered(line: &mut [u8], at: usize, refusal: u64, bits: u64) -> usize {
    let a = test_lines::number(line, at, refusal);
    let b = wire::store::place(line, a, b":");
    text::place_decimal(line, b, bits)
}

// The events one after the other: the place after the last piece of the line. A piece that is long enough is printed, and let go
// where it cannot be.
fn events(
    stdout: Stdout,
    line: &mut [u8],
    input: &[u8],
    identifiers: &[u32],
    files: &[u64],
    before: u64,
) -> usize {
    let mut at = 1;
    let mut bits = before;
    let mut rest = input;
    while let Some((kind, bytes, after)) = first_event(rest) {
        let reply = touched::words::after_event(identifiers, files, kind, bytes, bits);
        if PIECE <= at {
            let _ = test_lines::print(stdout, line, at);
            at = 0;
        }
        at = answered(line, at, reply.refusal, reply.bits);
        bits = reply.bits;
        rest = after;
    }
    at
}

// The list's entries: four bytes of identifier and one of file each.
fn fill(list: &[u8], identifiers: &mut [u32], files: &mut [u64]) {
    let entries = list.chunks_exact(5);
    for ((entry, id), file) in entries.zip(identifiers.iter_mut()).zip(files.iter_mut()) {
        *id = wire::field::read_u32(entry, 0).unwrap_or(0);
        *file = fields::byte(entry, 4) as u64;
    }
}

// The place after the last piece of the line, which begins with its kind; none where the input is malformed.
pub(crate) fn after_events(stdout: Stdout, line: &mut [u8], input: &[u8]) -> Option<usize> {
    let n = fields::byte(input, 0) as usize;
    let first = 2 + 5 * n;
    if input.len() < first {
        return None;
    }
    let bits = fields::byte(input, first - 1);
    if 15 < bits || !are_events(&input[first..]) {
        return None;
    }
    let mut identifiers = [0u32; 255];
    let mut files = [0u64; 255];
    fill(&input[1..first - 1], &mut identifiers, &mut files);
    let at = events(
        stdout,
        line,
        &input[first..],
        &identifiers[..n],
        &files[..n],
        bits as u64,
    );
    Some(at)
}
