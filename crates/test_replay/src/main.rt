#![tactic(auto)]
// Plays scripts of calls from standard input, one after another to its end, and prints what every call answered.
mod calls;
mod fault;
mod names;
mod open;
mod script;
mod spelled;

use fault::Malformed;
use std::io::{Print, Stdin, Stdout};
use test_lines::streams::zeros;

// One script; whether to go on.
fn one_script(
    input: Stdin,
    output: Stdout,
    server: &mut [u8],
    payload: &mut [u8],
) -> Result<bool, Malformed> {
    let mut list = [0u8; 8192];
    let Some(s) = script::read_script(input, &mut list, server)? else {
        return Ok(false);
    };
    let n = s.server.min(server.len());
    let k = s.payload.min(payload.len());
    let payload = &mut payload[..k];
    let p = open::begin(output, s, &list);
    payload.fill(s.payload_fill);
    let p = calls::all(input, output, p, s.calls, &server[..n], payload)?;
    spelled::finish(output, p.run);
    Ok(true)
}

// A script that is malformed before or in its calls ends the program.
fn main(rt: HostRuntime) {
    let output = rt.stdout();
    let mut server = zeros::<131072>();
    let mut payload = zeros::<65536>();
    for _ in 0..u64::MAX {
        match one_script(rt.stdin(), output, &mut server, &mut payload) {
            Ok(true) => {}
            Ok(false) => return,
            Err(Malformed) => {
                let _ = output.write_all(b"BAD\n");
                return;
            }
        }
    }
}
