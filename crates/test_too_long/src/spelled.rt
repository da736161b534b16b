// The lines: a name, the refusal, how many bytes were written, and the sum of the output.
use error::Refusal;
use lossy::Lossy;
use std::io::Stdout;

fn line(line: &mut [u8], name: &[u8], refusal: u8, written: usize, out: &[u8]) -> usize {
    let a = wire::store::place(line, 0, name);
    let b = test_lines::number(line, a, refusal as u64);
    let c = test_lines::number(line, b, written as u64);
    let d = test_lines::number(line, c, test_lines::sum(out));
    test_lines::end(line, d)
}

// A line that cannot be written is let go, and the next ones come all the same.
fn print(output: Stdout, name: &[u8], refusal: u8, written: usize, out: &[u8]) {
    let mut space = [0u8; 80];
    let n = line(&mut space, name, refusal, written, out);
    let _ = test_lines::print(output, &space, n);
}

pub(crate) fn written(output: Stdout, name: &[u8], w: Result<usize, Refusal>, out: &[u8]) {
    match w {
        Ok(n) => print(output, name, 0, n, out),
        Err(r) => print(output, name, r.number(), 0, out),
    }
}

pub(crate) fn shown(output: Stdout, name: &[u8], w: Result<Lossy, Refusal>, out: &[u8]) {
    match w {
        Ok(length) => print(output, name, 0, length.bytes, out),
        Err(r) => print(output, name, r.number(), 0, out),
    }
}
