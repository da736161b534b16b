// The calls of a script.
use crate::fault::{Malformed, read};
use crate::spelled;
use lsn::Lsn;
use moment::Moment;
use std::io::{Stdin, Stdout};
use test_lines::fields;
use worker::{Input, Queue, Reporting, Run};

// The run, whether it was opened, and how many server bytes were taken.
#[derive(Clone, Copy)]
pub(crate) struct Play {
    pub(crate) run: Run,
    pub(crate) opened: bool,
    pub(crate) taken: usize,
}

// A call as a script has it. An output has a length, at most 4,096, and a byte that fills it.
#[derive(Clone, Copy)]
enum Call {
    Step {
        input: Input,
        unread: usize,
        room: usize,
        fill: u8,
    },
    Report {
        position: u64,
        moment: u64,
    },
    FileReport {
        file: u8,
        position: u64,
        moment: u64,
    },
    Page {
        room: usize,
        fill: u8,
    },
}

const MOST_ROOM: usize = 4096;

fn flag(b: u8) -> Result<bool, Malformed> {
    match b {
        0 => Ok(false),
        1 => Ok(true),
        _ => Err(Malformed),
    }
}

fn queue(q: u8) -> Result<Queue, Malformed> {
    match q {
        0 => Ok(Queue::Free),
        1 => Ok(Queue::Full),
        2 => Ok(Queue::Closed),
        _ => Err(Malformed),
    }
}

fn room(n: usize) -> Result<usize, Malformed> {
    if MOST_ROOM < n {
        return Err(Malformed);
    }
    Ok(n)
}

fn read_step(input: Stdin) -> Result<Call, Malformed> {
    let mut call = [0u8; 26];
    read(input, &mut call)?;
    let stop = flag(fields::byte(&call, 16))?;
    let queue = queue(fields::byte(&call, 17))?;
    let ended = flag(fields::byte(&call, 22))?;
    let room = room(fields::half(&call, 23))?;
    Ok(Call::Step {
        input: Input {
            moment: Moment(fields::long(&call, 0)),
            client_time: fields::signed_long(&call, 8),
            stop,
            queue,
            ended,
        },
        unread: fields::word(&call, 18),
        room,
        fill: fields::byte(&call, 25),
    })
}

fn read_report(input: Stdin) -> Result<Call, Malformed> {
    let mut call = [0u8; 16];
    read(input, &mut call)?;
    Ok(Call::Report {
        position: fields::long(&call, 0),
        moment: fields::long(&call, 8),
    })
}

fn read_file_report(input: Stdin) -> Result<Call, Malformed> {
    let mut call = [0u8; 17];
    read(input, &mut call)?;
    Ok(Call::FileReport {
        file: fields::byte(&call, 0),
        position: fields::long(&call, 1),
        moment: fields::long(&call, 9),
    })
}

fn read_page(input: Stdin) -> Result<Call, Malformed> {
    let mut call = [0u8; 3];
    read(input, &mut call)?;
    let room = room(fields::half(&call, 0))?;
    Ok(Call::Page {
        room,
        fill: fields::byte(&call, 2),
    })
}

fn read_call(input: Stdin) -> Result<Call, Malformed> {
    let mut letter = [0u8; 1];
    read(input, &mut letter)?;
    match letter[0] {
        b'S' => read_step(input),
        b'P' => read_report(input),
        b'F' => read_file_report(input),
        b'G' => read_page(input),
        _ => Err(Malformed),
    }
}

// A step over at most so many server bytes, with an output that is filled for it, and its line.
fn step(
    output: Stdout,
    p: Play,
    input: Input,
    unread: usize,
    server: &[u8],
    payload: &mut [u8],
    out: &mut [u8],
) -> Play {
    let from = p.taken.min(server.len());
    let to = from + unread.min(server.len() - from);
    let s = worker::steps::step(p.run, input, &server[from..to], payload, out);
    spelled::step(output, s, out, payload);
    Play {
        run: s.run,
        opened: true,
        taken: test_lines::after(from, to, s.taken),
    }
}

fn reported(run: Run, file: u64, position: u64, moment: u64) -> Reporting {
    worker::session::report(run, file, Lsn(position), Moment(moment))
}

// A run that was not opened has its calls read and not made.
fn make_call(output: Stdout, p: Play, call: Call, server: &[u8], payload: &mut [u8]) -> Play {
    let mut space = [0u8; MOST_ROOM];
    match call {
        Call::Step {
            input,
            unread,
            room,
            fill,
        } => {
            let out = &mut space[..room.min(MOST_ROOM)];
            out.fill(fill);
            step(output, p, input, unread, server, payload, out)
        }
        // To all four files, in their order.
        Call::Report { position, moment } => {
            let mut run = p.run;
            for file in 0..4 {
                let r = reported(run, file, position, moment);
                run = r.run;
            }
            spelled::report(output, worker::session::position(run));
            Play { run, ..p }
        }
        Call::FileReport {
            file,
            position,
            moment,
        } => {
            let r = reported(p.run, file as u64, position, moment);
            spelled::file_report(output, r.verdict, worker::session::position(r.run));
            Play { run: r.run, ..p }
        }
        Call::Page { room, fill } => {
            let out = &mut space[..room.min(MOST_ROOM)];
            out.fill(fill);
            spelled::page(output, run_page::write(p.run, out), out);
            p
        }
    }
}

pub(crate) fn all(
    input: Stdin,
    output: Stdout,
    opened: Play,
    calls: u64,
    server: &[u8],
    payload: &mut [u8],
) -> Result<Play, Malformed> {
    let mut p = opened;
    for _ in 0..calls {
        let call = read_call(input)?;
        if p.opened {
            p = make_call(output, p, call, server, payload);
        }
    }
    Ok(p)
}
