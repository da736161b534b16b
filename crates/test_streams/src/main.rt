#![tactic(auto)]
// Plays the recorded streams of a server, each as the program `events` would.
use std::fs::File;
use std::io::Print;

const STREAMS: [&str; 9] = [
    "basic-text.bin",
    "encoding-sqlascii.bin",
    "keepalive-reply.bin",
    "limit-over-insert.bin",
    "messages.bin",
    "origins.bin",
    "terminate-idle.bin",
    "truncate.bin",
    "types-binary.bin",
];

// Of each the name, then its events. What cannot be written is let go, and of a stream that cannot be opened the name alone is told.
fn main(rt: HostRuntime) {
    let output = rt.stdout();
    for name in STREAMS {
        let _ = output.write_all(name.as_bytes());
        let _ = output.write_all(b"\n");
        if let Ok(mut file) = File::open(&rt, name) {
            test_playing::play(output, &mut file);
        }
    }
}
