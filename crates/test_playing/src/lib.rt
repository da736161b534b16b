#![tactic(auto)]
// Server bytes played through a run that is already open, and the events that it hands on: what the programs `events` and `test_streams` do.
pub mod spelling;

ghost use Rattle.std.specs.Prelude.{◌≡◌};
ghost use Rattle.worker.specs.Answer.{verdict_number};
ghost use Rattle.worker.specs.Step.{is_ended};
ghost use Rattle.test_lines.specs.Line.{pieces};
ghost use Rattle.test_playing.specs.Spelling.{end_texts_of, end_outside};
ghost use Rattle.test_playing.specs.Playing.{event_settings, begun, refilled_of, input_of, event_line, told_of, stepped, Plays};

use error::Refusal;
use lsn::Lsn;
use moment::Moment;
use std::io::{Read, Stdout};
use test_lines::streams::zeros;
use worker::{Event, Input, Queue, Run, Settings, State, Stepped};

// The longest intervals: with a clock that stands still no status is due after the first.
fn settings() -> Settings
    ensures { result ≡ event_settings }
{
    Settings {
        status_interval: worker::session::LONGEST_INTERVAL,
        idle_wakeup_interval: worker::session::LONGEST_INTERVAL,
        max_message_size: 65536,
        has_stop: false,
        stop_at_lsn: Lsn(0),
        timing: false,
        binary: false,
    }
}

// The run, the unread part of the buffer, whether the input has ended, and whether the run goes on.
#[derive(Clone, Copy)]
struct Playing {
    run: Run,
    from: usize,
    to: usize,
    ended: bool,
    go: bool,
}

fn begin() -> Playing
    ensures { result ≡ begun }
{
    let opened = worker::session::already_open(settings(), Lsn(0));
    let run = opened.run;
    Playing {
        run,
        from: 0,
        to: 0,
        ended: false,
        go: true,
    }
}

// The next bytes, where none are unread. How many come is the file's affair; none are its end.
fn refilled<R: Read>(p: Playing, file: &mut R, bytes: &mut [u8]) -> Playing
    ensures { result ≡ refilled_of p result.to }
{
    if p.from < p.to {
        return p;
    }
    if p.ended {
        return p;
    }
    let n = file.read(bytes).unwrap_or(0);
    let run = p.run;
    Playing {
        run,
        from: 0,
        to: n,
        ended: n == 0,
        go: true,
    }
}

// The clock stands still, the queue is free, and nobody asks for a stop.
fn input(ended: bool) -> Input
    ensures { result ≡ input_of ended }
{
    Input {
        moment: Moment(1),
        client_time: 0,
        stop: false,
        queue: Queue::Free,
        ended,
    }
}

fn is_over(run: Run) -> bool
    ensures { result ≡ is_ended run.state }
{
    let state = worker::session::state(run);
    match state {
        State::Opening => false,
        State::Turn => false,
        State::Drain => false,
        State::Reading => false,
        State::Waiting => false,
        State::Handling => false,
        State::Offering => false,
        State::Ended => true,
    }
}

// Prints the line of an event, and nothing for no event. Lines that cannot be written are let go: `play` promises its run whatever is printed.
fn tell_event(output: Stdout, event: Event, payload: &[u8], line: &mut [u8])
    ensures { line.new ≡ event_line event payload.now line.old }
{
    let a = spelling::event(line, 0, payload, event, true);
    if a == 0 {
        return;
    }
    let b = test_lines::end(line, a);
    let _ = test_lines::print(output, line, b);
}

// Prints the last line.
fn tell_end(output: Stdout, verdict: Result<(), Refusal>, line: &mut [u8])
    ensures { line.new ≡ (pieces line.old 0 (end_texts_of (verdict_number verdict))).1 }
{
    let a = wire::store::place(line, 0, b"END");
    let b = test_lines::number(line, a, spelling::number(verdict) as u64);
    let c = test_lines::end(line, b);
    let _ = test_lines::print(output, line, c);
}

// Prints the last line of a run that says that it took more than it was offered.
fn tell_outside(output: Stdout, line: &mut [u8])
    ensures { line.new ≡ (pieces line.old 0 end_outside).1 }
{
    let a = wire::store::place(line, 0, b"END");
    let b = test_lines::outside(line, a);
    let c = test_lines::end(line, b);
    let _ = test_lines::print(output, line, c);
}

// The lines of a step that was offered that many bytes: its event's, and the last one. Whether the run goes on.
fn told(output: Stdout, s: Stepped, offered: usize, payload: &[u8], line: &mut [u8]) -> bool
    ensures { (result, line.new) ≡ told_of s offered payload.now line.old }
{
    let event = s.event;
    let run = s.run;
    let verdict = s.verdict;
    let taken = s.taken;
    tell_event(output, event, payload, line);
    if offered < taken {
        tell_outside(output, line);
        return false;
    }
    if is_over(run) {
        tell_end(output, verdict, line);
        return false;
    }
    true
}

fn step(
    output: Stdout,
    p: Playing,
    bytes: &[u8],
    payload: &mut [u8],
    out: &mut [u8],
    line: &mut [u8],
) -> Playing
    ensures { (result, payload.new, out.new) ≡ stepped p bytes.now payload.old out.old }
{
    let run = p.run;
    let to = p.to.min(bytes.len());
    let from = p.from.min(to);
    let s = worker::steps::step(run, input(p.ended), &bytes[from..to], payload, out);
    let offered = to - from;
    let taken = s.taken.min(offered);
    let next = s.run;
    let go = told(output, s, offered, payload, line);
    Playing {
        run: next,
        from: from + taken,
        to,
        ended: p.ended,
        go,
    }
}

fn turn<R: Read>(
    output: Stdout,
    p: Playing,
    file: &mut R,
    bytes: &mut [u8],
    payload: &mut [u8],
    out: &mut [u8],
    line: &mut [u8],
) -> Playing
    ensures { Plays p.run → Plays result.run }
{
    let q = refilled(p, file, bytes);
    step(output, q, bytes, payload, out, line)
}

fn turns<R: Read>(
    output: Stdout,
    file: &mut R,
    bytes: &mut [u8],
    payload: &mut [u8],
    out: &mut [u8],
    line: &mut [u8],
) -> Run
    ensures { Plays result }
{
    let mut p = begin();
    for _ in 0..u64::MAX {
        p = turn(output, p, file, bytes, payload, out, line);
        if !p.go {
            break;
        }
    }
    p.run
}

// Plays what a file has, in reads of 64 KB, and prints its events. The answer is the run after the last step.
pub fn play<R: Read>(output: Stdout, file: &mut R) -> Run
    ensures { Plays result }
{
    let mut bytes = zeros::<65536>();
    let mut payload = zeros::<65536>();
    let mut out = [0u8; 39];
    let mut line = [0u8; 256];
    turns(output, file, &mut bytes, &mut payload, &mut out, &mut line)
}
