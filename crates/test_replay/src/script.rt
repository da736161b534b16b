// What stands in a script before its calls.
use crate::fault::{Malformed, read};
use crate::names;
use lsn::Lsn;
use std::io::Stdin;
use test_lines::{fields, streams};
use worker::Settings;

// How its run begins, how long its slot is, how many publications follow it, its buffers, and how many calls it has.
#[derive(Clone, Copy)]
pub(crate) struct Script {
    pub(crate) already_open: bool,
    pub(crate) settings: Settings,
    pub(crate) position: Lsn,
    pub(crate) start: Lsn,
    pub(crate) slot: usize,
    pub(crate) publications: u8,
    pub(crate) payload: usize,
    pub(crate) payload_fill: u8,
    pub(crate) output: usize,
    pub(crate) output_fill: u8,
    pub(crate) server: usize,
    pub(crate) calls: u64,
}

fn settings_of(head: &[u8]) -> Settings {
    Settings {
        status_interval: fields::long(head, 2),
        idle_wakeup_interval: fields::long(head, 10),
        max_message_size: fields::long(head, 18) as usize,
        has_stop: fields::byte(head, 42) == 1,
        stop_at_lsn: Lsn::from_u64(fields::long(head, 43)),
        timing: fields::byte(head, 51) == 1,
        binary: fields::byte(head, 52) == 1,
    }
}

// Four bytes are flags.
fn is_head(head: &[u8]) -> bool {
    fields::byte(head, 0) == b'R'
        && fields::byte(head, 1) <= 1
        && fields::byte(head, 42) <= 1
        && fields::byte(head, 51) <= 1
        && fields::byte(head, 52) <= 1
}

// The buffers' lengths, within their bounds.
fn are_lengths(tail: &[u8]) -> bool {
    fields::word(tail, 0) <= 65536
        && fields::word(tail, 5) <= 4096
        && fields::word(tail, 10) <= 131072
}

// None where the input ends before it. The names and the server's bytes come into the buffers.
pub(crate) fn read_script(
    input: Stdin,
    list: &mut [u8],
    server: &mut [u8],
) -> Result<Option<Script>, Malformed> {
    let mut head = [0u8; 55];
    let got = streams::read_full(input, &mut head);
    if got == 0 {
        return Ok(None);
    }
    if got < head.len() || !is_head(&head) {
        return Err(Malformed);
    }
    let slot = fields::half(&head, 53);
    let publications = names::read_all(input, slot, list)?;
    let mut tail = [0u8; 14];
    read(input, &mut tail)?;
    let n = fields::word(&tail, 10);
    if !are_lengths(&tail) || server.len() < n {
        return Err(Malformed);
    }
    read(input, &mut server[..n])?;
    let mut calls = [0u8; 4];
    read(input, &mut calls)?;
    Ok(Some(Script {
        already_open: fields::byte(&head, 1) == 1,
        settings: settings_of(&head),
        position: Lsn::from_u64(fields::long(&head, 26)),
        start: Lsn::from_u64(fields::long(&head, 34)),
        slot,
        publications,
        payload: fields::word(&tail, 0),
        payload_fill: fields::byte(&tail, 4),
        output: fields::word(&tail, 5),
        output_fill: fields::byte(&tail, 9),
        server: n,
        calls: fields::word(&calls, 0) as u64,
    }))
}
