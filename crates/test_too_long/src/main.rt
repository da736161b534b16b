#![tactic(auto)]
// Openings and writers whose lent inputs have about 1,048,576 bytes together: above it 25, which comes before 4 and leaves the output as it was; at
// it 4 where the output is short, and the whole text where it is not. SCOPE 3.5; 01, "Where each call turns back".
mod opens;
mod spelled;
mod writers;

use test_lines::streams::zeros;

// One byte more than the inputs of a call may have together, and outputs with room for less and for the longest text.
fn main(rt: HostRuntime) {
    let output = rt.stdout();
    let mut bytes = zeros::<1048577>();
    bytes.fill(b'n');
    let mut short = [0u8; 256];
    let mut long = zeros::<1048832>();
    opens::all(output, &bytes, &mut short, &mut long);
    writers::all(output, &bytes, &mut short, &mut long);
}
