#![tactic(auto)]
// Prints the events in the server bytes on standard input.
fn main(rt: HostRuntime) {
    let mut input = rt.stdin();
    let output = rt.stdout();
    test_playing::play(output, &mut input);
}
