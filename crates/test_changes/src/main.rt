#![tactic(auto)]
// Reads records from standard input to its end and prints the line of each: rows, and what follows from them.
mod cache;
mod row;
mod touched_files;
mod words;

use std::io::{Print, Stdin, Stdout};
use test_lines::fields;
use test_lines::streams::{read_full, zeros};

// The longest output of a record. No kind of this program has an output.
const OUTPUT_LIMIT: usize = 65536;

// The line of a record whose input was read, of which what is longer than the buffer is printed already; none where it is malformed. A line begins with
// its kind.
fn line_of(stdout: Stdout, kind: u8, input: &[u8], line: &mut [u8]) -> Option<usize> {
    wire::store::place(line, 0, &[kind]);
    match kind {
        b'i' => Some(row::after_fields(line, input)),
        b'j' => touched_files::after_events(stdout, line, input),
        b'h' => cache::after_messages(stdout, line, input),
        _ => None,
    }
}

// The same of a record whose head was read: its kind, how long its output is, the byte that fills it, and how long its input is.
fn answer(
    stdin: Stdin,
    stdout: Stdout,
    head: &[u8],
    input: &mut [u8],
    line: &mut [u8],
) -> Option<usize> {
    let n = fields::word(head, 6);
    if OUTPUT_LIMIT < fields::word(head, 1) || input.len() < n {
        return None;
    }
    if read_full(stdin, &mut input[..n]) < n {
        return None;
    }
    line_of(stdout, fields::byte(head, 0), &input[..n], line)
}

// One record; whether to go on. A malformed one ends the program, and so does a line whose end cannot be written.
fn one_record(stdin: Stdin, stdout: Stdout, input: &mut [u8], line: &mut [u8]) -> bool {
    let mut head = [0u8; 10];
    let got = read_full(stdin, &mut head);
    if got == 0 {
        return false;
    }
    if got == head.len() {
        if let Some(at) = answer(stdin, stdout, &head, input, line) {
            let n = test_lines::end(line, at);
            return test_lines::print(stdout, line, n).is_ok();
        }
    }
    let _ = stdout.write_all(b"BAD\n");
    false
}

// An input has at most 262,144 bytes, and a line less than three bytes for each of them.
fn main(rt: HostRuntime) {
    let mut input = zeros::<262144>();
    let mut line = zeros::<1048576>();
    for _ in 0..u64::MAX {
        if !one_record(rt.stdin(), rt.stdout(), &mut input, &mut line) {
            break;
        }
    }
}
