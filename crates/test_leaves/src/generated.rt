// A generated load: its stream as a writer's line, and its own list of events.
use crate::shown::{accepted, refused};
use crate::writers::Answer;
use load::{Message, Refusal};
use lossy::Lossy;
use lsn::Lsn;
use test_lines::fields;

// The seed and how many messages.
pub(crate) fn stream(input: &[u8], out: &mut [u8]) -> Option<Answer> {
    if input.len() != 16 {
        return None;
    }
    match load::write_load(fields::long(input, 0), fields::long(input, 8), out) {
        Ok(bytes) => Some(Ok(Lossy { bytes, marks: 0 })),
        Err(r) => Some(Err(r)),
    }
}

// The event of a message, as in a script's line.
fn event(line: &mut [u8], at: usize, m: Message) -> usize {
    match m {
        Message::KeepAlive { end, reply } => {
            let a = test_lines::dated(line, at, b'K', Lsn(end), 0);
            test_lines::flag(line, a, reply)
        }
        Message::Begin {
            start: _,
            end: _,
            final_lsn,
            xid,
        } => {
            let a = test_lines::dated(line, at, b'B', Lsn(final_lsn), 0);
            test_lines::number(line, a, xid as u64)
        }
        Message::Data {
            start,
            end,
            letters,
        } => {
            let a = test_lines::spanned(line, at, b'X', Lsn(start), Lsn(end), 0);
            let mut data = [b'A'; 256];
            data[0] = b'I';
            test_lines::part(line, a, &data, 0, letters as usize + 1)
        }
        Message::Commit {
            start: _,
            end: _,
            lsn,
            end_lsn,
        } => test_lines::spanned(line, at, b'C', Lsn(lsn), Lsn(end_lsn), 0),
    }
}

fn list(line: &mut [u8], seed: u64, messages: usize) -> usize {
    let mut at = accepted(line);
    let mut state = seed;
    for _ in 0..messages {
        let m = load::message_from(state);
        let bar = wire::store::place(line, at, b" | ");
        at = event(line, bar, m.message);
        state = m.state;
    }
    at
}

// The seed and how many events, at most 1,000. An input of another length is malformed.
pub(crate) fn events(line: &mut [u8], input: &[u8]) -> Option<usize> {
    if input.len() != 10 {
        return None;
    }
    let messages = fields::half(input, 8);
    if 1000 < messages {
        return None;
    }
    let seed = fields::long(input, 0);
    if seed == 0 {
        return Some(refused(line, Refusal::SeedZero.number()));
    }
    Some(list(line, seed, messages))
}
