// Openings of runs.
use crate::spelled;
use lsn::Lsn;
use std::io::Stdout;
use worker::Settings;

fn settings(interval: u64) -> Settings {
    Settings {
        status_interval: interval,
        idle_wakeup_interval: 0,
        max_message_size: 65536,
        has_stop: false,
        stop_at_lsn: Lsn(0),
        timing: false,
        binary: false,
    }
}

// A slot of that many bytes, and that many publications of three bytes each, at most two.
fn named(
    output: Stdout,
    interval: u64,
    bytes: &[u8],
    slot: usize,
    publications: usize,
    out: &mut [u8],
) {
    let slot = &bytes[..slot.min(bytes.len())];
    let name = &bytes[..3.min(bytes.len())];
    let list = [name, name];
    let publications = &list[..publications.min(2)];
    out.fill(7);
    let zero = Lsn(0);
    let o = worker::session::open(settings(interval), slot, publications, zero, zero, out);
    spelled::written(output, b"OPEN", o.written, out);
}

// One above the limit and at it, in the slot alone and with publications; then an interval that comes before 25, a short query that is written, and
// the longest one.
pub(crate) fn all(output: Stdout, bytes: &[u8], short: &mut [u8], long: &mut [u8]) {
    named(output, 0, bytes, 1048577, 0, short);
    named(output, 0, bytes, 1048576, 0, short);
    named(output, 0, bytes, 1048571, 2, short);
    named(output, 0, bytes, 1048570, 2, short);
    named(output, 86400000000001, bytes, 1048577, 0, short);
    named(output, 0, bytes, 5, 2, short);
    named(output, 0, bytes, 1048570, 2, long);
}
