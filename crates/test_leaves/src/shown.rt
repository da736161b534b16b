// How a record's line begins after its kind: with the refusal's number, 0 for none.

pub(crate) fn accepted(line: &mut [u8]) -> usize {
    wire::store::place(line, 1, b" 0")
}

pub(crate) fn refused(line: &mut [u8], number: u8) -> usize {
    test_lines::number(line, 1, number as u64)
}

pub(crate) fn null(line: &mut [u8], at: usize) -> usize {
    wire::store::place(line, at, b" n")
}
