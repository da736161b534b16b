// Why a script cannot be played.
use std::io::Stdin;
use test_lines::streams;

#[derive(Debug)]
pub(crate) struct Malformed;

// Reads all of it. A script that ends before, or of which a read fails, is malformed.
pub(crate) fn read(input: Stdin, s: &mut [u8]) -> Result<(), Malformed> {
    if streams::read_full(input, s) < s.len() {
        return Err(Malformed);
    }
    Ok(())
}
