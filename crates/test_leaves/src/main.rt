#![tactic(auto)]
// Reads records from standard input to its end and prints the line of each.
mod boundaries;
mod calendar;
mod generated;
mod kinds;
mod message_reader;
mod names;
mod readers;
mod rows;
mod session;
mod shown;
mod writers;

use std::io::{Print, Stdin, Stdout};
use test_lines::fields;
use test_lines::streams::{read_full, zeros};

// What a record begins with: its kind, how long its output is, the byte that fills it, and how long its input is.
#[derive(Clone, Copy)]
struct Head {
    kind: u8,
    room: usize,
    fill: u8,
    input: usize,
}

fn head_of(head: &[u8]) -> Head {
    Head {
        kind: fields::byte(head, 0),
        room: fields::word(head, 1),
        fill: fields::byte(head, 5),
        input: fields::word(head, 6),
    }
}

// The length of the line of a record whose head was read; none where it is malformed.
fn answer(
    stdin: Stdin,
    head: &[u8],
    input: &mut [u8],
    out: &mut [u8],
    line: &mut [u8],
) -> Option<usize> {
    let h = head_of(head);
    if out.len() < h.room || input.len() < h.input {
        return None;
    }
    if read_full(stdin, &mut input[..h.input]) < h.input {
        return None;
    }
    out[..h.room].fill(h.fill);
    kinds::line_of(h.kind, &input[..h.input], &mut out[..h.room], line)
}

// One record; whether to go on. A line that cannot be written is the last one.
fn one_record(
    stdin: Stdin,
    stdout: Stdout,
    input: &mut [u8],
    out: &mut [u8],
    line: &mut [u8],
) -> bool {
    let mut head = [0u8; 10];
    let got = read_full(stdin, &mut head);
    if got == 0 {
        return false;
    }
    if got == head.len() {
        if let Some(n) = answer(stdin, &head, input, out, line) {
            return test_lines::print(stdout, line, n).is_ok();
        }
    }
    let _ = stdout.write_all(b"BAD\n");
    false
}

// An input and an output have at most 65,536 bytes; a line's longest part is the hexadecimal of the lossy text of an input.
fn main(rt: HostRuntime) {
    let mut input = zeros::<65536>();
    let mut out = zeros::<65536>();
    let mut line = zeros::<524288>();
    for _ in 0..u64::MAX {
        if !one_record(rt.stdin(), rt.stdout(), &mut input, &mut out, &mut line) {
            break;
        }
    }
}
