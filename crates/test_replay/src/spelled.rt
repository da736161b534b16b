// The lines of a script. One that cannot be written is let go, and the next ones come all the same.
use error::Refusal;
use lsn::Lsn;
use metrics::Metrics;
use progress::files::FileRefusal;
use std::io::Stdout;
use test_lines::streams::zeros;
use test_playing::spelling;
use worker::{Event, Run, State, Stepped};

// What a writer answered: the refusal's number, 0 for none, how many bytes were written, and the sum of the whole output.
fn written(line: &mut [u8], at: usize, w: Result<usize, Refusal>, out: &[u8]) -> usize {
    let (refusal, count) = match w {
        Ok(n) => (0, n),
        Err(r) => (r.number(), 0),
    };
    let a = test_lines::number(line, at, refusal as u64);
    let b = test_lines::number(line, a, count as u64);
    test_lines::number(line, b, test_lines::sum(out))
}

fn opened_line(line: &mut [u8], w: Result<usize, Refusal>, out: &[u8]) -> usize {
    let a = wire::store::place(line, 0, b"OPEN");
    let b = written(line, a, w, out);
    test_lines::end(line, b)
}

pub(crate) fn opened(output: Stdout, w: Result<usize, Refusal>, out: &[u8]) {
    let mut line = [0u8; 128];
    let n = opened_line(&mut line, w, out);
    let _ = test_lines::print(output, &line, n);
}

fn report_line(line: &mut [u8], position: Lsn) -> usize {
    let a = wire::store::place(line, 0, b"P");
    let b = test_lines::position(line, a, position);
    test_lines::end(line, b)
}

pub(crate) fn report(output: Stdout, position: Lsn) {
    let mut line = [0u8; 64];
    let n = report_line(&mut line, position);
    let _ = test_lines::print(output, &line, n);
}

fn file_refusal(verdict: Result<(), FileRefusal>) -> u8 {
    match verdict {
        Ok(()) => 0,
        Err(r) => r.number(),
    }
}

fn file_report_line(line: &mut [u8], refusal: u8, position: Lsn) -> usize {
    let a = wire::store::place(line, 0, b"F");
    let b = test_lines::number(line, a, refusal as u64);
    let c = test_lines::position(line, b, position);
    test_lines::end(line, c)
}

pub(crate) fn file_report(output: Stdout, verdict: Result<(), FileRefusal>, position: Lsn) {
    let refusal = file_refusal(verdict);
    let mut line = [0u8; 64];
    let n = file_report_line(&mut line, refusal, position);
    let _ = test_lines::print(output, &line, n);
}

// A page's answer, and the bytes written.
fn page_line(line: &mut [u8], w: Result<usize, Refusal>, out: &[u8]) -> usize {
    let a = wire::store::place(line, 0, b"G");
    let b = written(line, a, w, out);
    let c = test_lines::part(line, b, out, 0, w.unwrap_or(0));
    test_lines::end(line, c)
}

pub(crate) fn page(output: Stdout, w: Result<usize, Refusal>, out: &[u8]) {
    let mut line = [0u8; 512];
    let n = page_line(&mut line, w, out);
    let _ = test_lines::print(output, &line, n);
}

fn state(line: &mut [u8], at: usize, s: State) -> usize {
    let word: &[u8] = match s {
        State::Opening => b" OPENING",
        State::Turn => b" TURN",
        State::Drain => b" DRAIN",
        State::Reading => b" READING",
        State::Waiting => b" WAITING",
        State::Handling => b" HANDLING",
        State::Offering => b" OFFERING",
        State::Ended => b" ENDED",
    };
    wire::store::place(line, at, word)
}

fn waited(line: &mut [u8], at: usize, w: Option<u64>) -> usize {
    match w {
        None => wire::store::place(line, at, b" -"),
        Some(n) => test_lines::number(line, at, n),
    }
}

// An event after a space, or a hyphen.
fn handed_on(line: &mut [u8], at: usize, payload: &[u8], event: Event) -> usize {
    let a = wire::store::place(line, at, b" ");
    let b = spelling::event(line, a, payload, event, false);
    if a < b {
        return b;
    }
    wire::store::place(line, a, b"-")
}

// The refusal, how many bytes were taken, the state, how many bytes were written.
fn outcome(line: &mut [u8], refusal: u8, taken: usize, after: State, written: usize) -> usize {
    let a = wire::store::place(line, 0, b"S");
    let b = test_lines::number(line, a, refusal as u64);
    let c = test_lines::number(line, b, taken as u64);
    let d = state(line, c, after);
    test_lines::number(line, d, written as u64)
}

fn sums(line: &mut [u8], at: usize, out: &[u8], payload: &[u8]) -> usize {
    let a = test_lines::number(line, at, test_lines::sum(out));
    test_lines::number(line, a, test_lines::sum(payload))
}

fn event_line(line: &mut [u8], at: usize, w: Option<u64>, payload: &[u8], event: Event) -> usize {
    let a = waited(line, at, w);
    let b = handed_on(line, a, payload, event);
    test_lines::end(line, b)
}

fn step_head(line: &mut [u8], s: Stepped) -> usize {
    let verdict = s.verdict;
    let run = s.run;
    let refusal = spelling::number(verdict);
    outcome(
        line,
        refusal,
        s.taken,
        worker::session::state(run),
        s.written,
    )
}

fn step_line(line: &mut [u8], s: Stepped, out: &[u8], payload: &[u8]) -> usize {
    let w = s.waited;
    let event = s.event;
    let a = step_head(line, s);
    let b = sums(line, a, out, payload);
    event_line(line, b, w, payload, event)
}

// The longest line has the bytes of the longest payload in hexadecimal, and some fields of at most 20 digits.
pub(crate) fn step(output: Stdout, s: Stepped, out: &[u8], payload: &[u8]) {
    let mut line = zeros::<132096>();
    let n = step_line(&mut line, s, out, payload);
    let _ = test_lines::print(output, &line, n);
}

fn counters(line: &mut [u8], m: Metrics) -> usize {
    let a = wire::store::place(line, 0, b"END");
    let b = test_lines::number(line, a, m.events_forwarded);
    let c = test_lines::number(line, b, m.feedback_sent);
    test_lines::number(line, c, m.keepalive_replies)
}

fn stalls(line: &mut [u8], at: usize, m: Metrics) -> usize {
    let a = test_lines::number(line, at, m.stall_count);
    test_lines::number(line, a, m.stall_micros_total)
}

fn positions(line: &mut [u8], at: usize, m: Metrics) -> usize {
    let a = test_lines::position(line, at, m.last_applied_lsn);
    let b = test_lines::position(line, a, m.last_wal_end);
    test_lines::end(line, b)
}

fn last_line(line: &mut [u8], m: Metrics) -> usize {
    let a = counters(line, m);
    let b = stalls(line, a, m);
    positions(line, b, m)
}

pub(crate) fn finish(output: Stdout, run: Run) {
    let mut line = [0u8; 256];
    let n = last_line(&mut line, worker::session::metrics(run));
    let _ = test_lines::print(output, &line, n);
}
