#![tactic(auto)]
// Reads stored positions from standard input, one a line, and prints of each Display's spelling, or the refusal's number, a space and the line.
mod stored;

use std::io::{Read, Stdin, Stdout};
use stored::Told;
use test_lines::streams;

// What one byte can print is less: a refusal's number, a line and a line feed.
const SPARE: usize = 512;

// What is printed is collected, and written where there may be no room for what the next byte prints. What cannot be written is let go.
fn with_room(output: Stdout, t: Told, out: &[u8]) -> Told {
    if SPARE <= out.len().saturating_sub(t.at) {
        return t;
    }
    let _ = test_lines::print(output, out, t.at);
    Told { at: 0, ..t }
}

// A piece's bytes, one after the other. Where a piece begins and ends plays no part.
fn piece(output: Stdout, t: Told, bytes: &[u8], line: &mut [u8], out: &mut [u8]) -> Told {
    let mut u = t;
    for &b in bytes {
        u = with_room(output, u, out);
        u = stored::turn(u.held, b, line, out, u.at);
    }
    u
}

// All pieces, then the last line, where it has no line feed. Nothing says that an input ends, so the pieces are counted. A read that fails is its end.
fn run(input: Stdin, output: Stdout, bytes: &mut [u8], line: &mut [u8], out: &mut [u8]) {
    let mut file = input;
    let mut t = Told {
        held: Some(0),
        at: 0,
    };
    for _ in 0..u64::MAX {
        let n = file.read(bytes).unwrap_or(0);
        if n == 0 {
            break;
        }
        t = piece(output, t, &bytes[..n], line, out);
    }
    t = with_room(output, t, out);
    let n = stored::last(t.held, line, out, t.at);
    let _ = test_lines::print(output, out, n);
}

// A stored line has at most 255 bytes, and that is what is held of one.
fn main(rt: HostRuntime) {
    let mut bytes = streams::zeros::<65536>();
    let mut line = [0u8; 255];
    let mut out = streams::zeros::<65536>();
    run(rt.stdin(), rt.stdout(), &mut bytes, &mut line, &mut out);
}
