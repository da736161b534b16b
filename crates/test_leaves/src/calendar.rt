// Opening hours: seven windows, Monday first, each 2 bytes of its opening and 2 of its closing minute, then 4 of the offset and 8 of the moment.
use crate::shown::{accepted, refused};
use hours::{Hours, Told};
use test_lines::fields;

const INPUT: usize = 40;

fn minute(input: &[u8], at: usize) -> u64 {
    fields::half(input, at) as u64
}

fn hours_of(input: &[u8]) -> Hours {
    Hours {
        opens: [
            minute(input, 0),
            minute(input, 4),
            minute(input, 8),
            minute(input, 12),
            minute(input, 16),
            minute(input, 20),
            minute(input, 24),
        ],
        closes: [
            minute(input, 2),
            minute(input, 6),
            minute(input, 10),
            minute(input, 14),
            minute(input, 18),
            minute(input, 22),
            minute(input, 26),
        ],
        offset: i64::from(fields::signed_word(input, 28)),
    }
}

fn told(line: &mut [u8], told: Told) -> usize {
    let a = accepted(line);
    let b = test_lines::flag(line, a, told.is_open);
    match told.change {
        Some(moment) => test_lines::long(line, b, moment),
        None => wire::store::place(line, b, b" never"),
    }
}

// An input of another length is malformed.
pub(crate) fn after_fields(line: &mut [u8], input: &[u8]) -> Option<usize> {
    if input.len() != INPUT {
        return None;
    }
    let hours = hours_of(input);
    match hours.ask(fields::signed_long(input, 32)) {
        Ok(answer) => Some(told(line, answer)),
        Err(r) => Some(refused(line, r.number())),
    }
}
