#![tactic(auto)]
// Functions for a host in Rust or C: a run is 64 lent words, bytes are lent slices. No words are refused: any are the words of some run.
// SCOPE 9. Each function converts words, calls one function of a crate below, and converts what that answers.
// Beside a run's words at exit a contract has the run that they stand for, so that calls over words are calls over runs.
mod abi;
mod caches;
mod calendar;
mod cells;
mod client;
mod generated;
mod row;
mod server;
mod touched_files;

ghost use Rattle.std.specs.Prelude.{◌≡◌};
ghost use Rattle.advance.specs.Advance.{advance_of};
ghost use Rattle.worker.specs.Answer.{lent};
ghost use Rattle.worker.specs.Step.{step_of};
ghost use Rattle.ffi_words.specs.Calls.{standing, step_call, open_call, already_open_call, report_call, report_each_call, state_call, metrics_call, position_call, last_sent_call};
ghost use Rattle.ffi_answers.specs.Next.{next_step_call};
ghost use Rattle.ffi_answers.specs.Pages.{page_call};
ghost use Rattle.ffi_answers.specs.Parts.{error_part_call};
ghost use Rattle.ffi_export.specs.Abi.{abi_call};
ghost use Rattle.ffi_answers.specs.Texts.{lossy_call, lossy_by_table_call, well_formed_prefix_call, error_text_call, parse_position_call, display_position_call};

use ffi_answers::next::next_words;
use ffi_answers::part::error_words;
use ffi_answers::reply::{lossy_reply, parsed_reply, written_reply};
use ffi_answers::shown::page_of;
use ffi_words::layout;
use ffi_words::run::{
    last_status_of, last_status_words, metrics_of, metrics_words, progress_of, run_of, settings_of,
    state_of, state_word, words_of,
};
use ffi_words::step::{answer_words, file_verdict_word, input_of, queue_of, verdict_word};
use lsn::Lsn;
use moment::Moment;

// ---- the number of the interface

// The number of the interface that the archive has, `ABI`.
#[unsafe(no_mangle)]
pub extern "C" fn rufflesquash_abi() -> u64
    ensures { result ≡ abi_call }
{
    abi::ABI
}

// ---- a run

// Writes the query that opens a stream, and makes the run. Answers the refusal (1, 25, 4); refused, run and out are as they were and written is 0.
//
// The position is what the query asks for, the start is where confirmations begin.
#[unsafe(no_mangle)]
pub extern "C" fn rufflesquash_open(
    settings: &[u64; layout::SETTINGS_WORDS],
    slot: &[u8],
    publications: &[&[u8]],
    position: u64,
    start: u64,
    run: &mut [u64; layout::RUN_WORDS],
    out: &mut [u8],
    written: &mut u64,
) -> u64
    ensures { (result, standing run.new, written.new, out.new)
        ≡ open_call run.old settings.now slot.now publications.now position start out.old }
{
    let s = settings_of(*settings);
    let o = worker::session::open(s, slot, publications, Lsn(position), Lsn(start), out);
    let answer = o.written;
    let reply = written_reply(answer);
    *written = reply.value;
    if reply.refusal == 0 {
        let opened = o.run;
        *run = words_of(opened);
    }
    reply.refusal
}

// Makes a run whose stream has begun already: no query is sent. Answers the refusal (1); refused, run is as it was.
#[unsafe(no_mangle)]
pub extern "C" fn rufflesquash_already_open(
    settings: &[u64; layout::SETTINGS_WORDS],
    start: u64,
    run: &mut [u64; layout::RUN_WORDS],
) -> u64
    ensures { (result, standing run.new) ≡ already_open_call run.old settings.now start }
{
    let s = settings_of(*settings);
    let o = worker::session::already_open(s, Lsn(start));
    let verdict = o.verdict;
    let refusal = verdict_word(verdict);
    if refusal == 0 {
        let opened = o.run;
        *run = words_of(opened);
    }
    refusal
}

// One step of a run. The parts that the event names lie in payload, whatever the words of the run are.
//
// The moment is nanoseconds, 1 to 2^63 - 1, the client's time microseconds from 2000-01-01. That the input has ended counts only where no byte is
// unread. The payload buffer is as long as the limit at least, and is lent unchanged to every step. Out has 39 bytes at least; what is written there
// is sent before the next step. Without a refusal a run ends at a stop request, at its stop position, or at the server's CopyDone; it has then
// written its own.
#[unsafe(no_mangle)]
pub extern "C" fn rufflesquash_step(
    run: &mut [u64; layout::RUN_WORDS],
    moment: u64,
    client_time: i64,
    stop: bool,
    queue: u64,
    ended: bool,
    unread: &[u8],
    payload: &mut [u8],
    out: &mut [u8],
    answer: &mut [u64; layout::ANSWER_WORDS],
)
    ensures { (standing run.new, answer.new, payload.new, out.new)
        ≡ step_call step_of run.old moment client_time stop queue ended
        (lent unread.now payload.old out.old) }
{
    let before = run_of(*run);
    let input = input_of(moment, client_time, stop, queue, ended);
    let s = worker::steps::step(before, input, unread, payload, out);
    let after = s.run;
    *run = words_of(after);
    *answer = answer_words(s, payload.len());
}

// One to four steps with the same input, until one of them has a refusal, an event or bytes to send. The answer is the last one's; taken is their
// sum.
#[unsafe(no_mangle)]
pub extern "C" fn rufflesquash_advance(
    run: &mut [u64; layout::RUN_WORDS],
    moment: u64,
    client_time: i64,
    stop: bool,
    queue: u64,
    ended: bool,
    unread: &[u8],
    payload: &mut [u8],
    out: &mut [u8],
    answer: &mut [u64; layout::ANSWER_WORDS],
)
    ensures { (standing run.new, answer.new, payload.new, out.new)
        ≡ step_call advance_of run.old moment client_time stop queue ended
        (lent unread.now payload.old out.old) }
{
    let before = run_of(*run);
    let input = input_of(moment, client_time, stop, queue, ended);
    let s = advance::advance(before, input, unread, payload, out);
    let after = s.run;
    *run = words_of(after);
    *answer = answer_words(s, payload.len());
}

// A file, 0 to 3, has applied all before a position. Answers the refusal: 31 for every other number, on any run, and run is as it was.
//
// A status confirms the smallest over the four files of the largest of the start and that file's reports; a host with fewer files reports for all
// four.
#[unsafe(no_mangle)]
pub extern "C" fn rufflesquash_report(
    run: &mut [u64; layout::RUN_WORDS],
    file: u64,
    position: u64,
    moment: u64,
) -> u64
    ensures { (result, standing run.new) ≡ report_call run.old file position moment }
{
    let before = run_of(*run);
    let a = worker::session::report(before, file, Lsn(position), Moment(moment));
    let verdict = a.verdict;
    let refusal = file_verdict_word(verdict);
    if refusal == 0 {
        let after = a.run;
        *run = words_of(after);
    }
    refusal
}

// Each of the four files has applied all before its position: reports of the files 0 to 3, in this order and at one moment, of which none is refused.
// Answers what a status would confirm now.
#[unsafe(no_mangle)]
pub extern "C" fn rufflesquash_report_each(
    run: &mut [u64; layout::RUN_WORDS],
    positions: &[u64; layout::POSITIONS_WORDS],
    moment: u64,
) -> u64
    ensures { (result, standing run.new) ≡ report_each_call run.old positions.now moment }
{
    let p = *positions;
    let at = Moment(moment);
    let before = run_of(*run);
    let zero = worker::session::report(before, 0, Lsn(p[0]), at);
    let one = worker::session::report(zero.run, 1, Lsn(p[1]), at);
    let two = worker::session::report(one.run, 2, Lsn(p[2]), at);
    let three = worker::session::report(two.run, 3, Lsn(p[3]), at);
    let after = three.run;
    *run = words_of(after);
    let position = worker::session::position(after);
    position.0
}

// When a step moves next while no byte is unread, the input has not ended, no stop is requested, the queue stays as it is and nothing is reported.
//
// A host that has unread bytes, an ended input or a stop request steps at once instead.
#[unsafe(no_mangle)]
pub extern "C" fn rufflesquash_next_step(
    run: &[u64; layout::RUN_WORDS],
    payload_len: usize,
    queue: u64,
    next: &mut [u64; layout::NEXT_WORDS],
)
    ensures { next.new ≡ next_step_call run.now payload_len queue }
{
    let r = run_of(*run);
    let q = queue_of(queue);
    *next = next_words(schedule::next_step(r, payload_len, q));
}

// The state of a run.
#[unsafe(no_mangle)]
pub extern "C" fn rufflesquash_state(run: &[u64; layout::RUN_WORDS]) -> u64
    ensures { result ≡ state_call run.now }
{
    let w = *run;
    state_word(state_of(w[layout::RUN_STATE]))
}

// The counters of a run.
#[unsafe(no_mangle)]
pub extern "C" fn rufflesquash_metrics(
    run: &[u64; layout::RUN_WORDS],
    counters: &mut [u64; layout::METRICS_WORDS],
)
    ensures { counters.new ≡ metrics_call run.now }
{
    let m = metrics_of(*run);
    *counters = metrics_words(m);
}

// What a status would confirm now.
#[unsafe(no_mangle)]
pub extern "C" fn rufflesquash_position(run: &[u64; layout::RUN_WORDS]) -> u64
    ensures { result ≡ position_call run.now }
{
    let progress = progress_of(*run);
    let position = progress.position();
    position.0
}

// The last status that a run sent.
#[unsafe(no_mangle)]
pub extern "C" fn rufflesquash_last_sent(
    run: &[u64; layout::RUN_WORDS],
    status: &mut [u64; layout::STATUS_WORDS],
)
    ensures { status.new ≡ last_sent_call run.now }
{
    let s = last_status_of(*run);
    *status = last_status_words(s);
}

// Whether a server error ended the run, and its length at the front of the payload buffer of its steps, of which the length is handed in.
#[unsafe(no_mangle)]
pub extern "C" fn rufflesquash_error_part(
    run: &[u64; layout::RUN_WORDS],
    payload_len: usize,
    part: &mut [u64; layout::ERROR_WORDS],
)
    ensures { part.new ≡ error_part_call run.now payload_len }
{
    let r = run_of(*run);
    let error = worker::session::error_part(r);
    *part = error_words(error, payload_len);
}

// The service page of a run: six lines of 32 characters and a newline, 198 bytes, at the front of out. Answers the refusal (4); refused, out is as it
// was and written is 0.
//
// A label stands flush left in 12 characters, its value flush right in 20: POSITION (what a status would confirm now), SENT (what the last status
// confirmed, a hyphen before the first), SERVER (wal_end of the last XLogData or keepalive that was handled without refusal), EVENTS (handed on),
// STALLS (begun), STATE.
#[unsafe(no_mangle)]
pub extern "C" fn rufflesquash_page(
    run: &[u64; layout::RUN_WORDS],
    out: &mut [u8],
    written: &mut u64,
) -> u64
    ensures { ((result, written.new), out.new) ≡ page_call run.now out.old }
{
    let page = page_of(*run);
    let reply = written_reply(page.write(out));
    *written = reply.value;
    reply.refusal
}

// ---- texts and positions: refused, out is as it was and what is given beside it is 0
//
// The marks are how many U+FFFD were put in, one for each ill-formed part of the texts that are shown; one that was in the text already is not
// counted.

// The lossy text of bytes, such as a prefix. Answers the refusal (25, 4).
#[unsafe(no_mangle)]
pub extern "C" fn rufflesquash_lossy(
    text: &[u8],
    out: &mut [u8],
    written: &mut u64,
    marks: &mut u64,
) -> u64
    ensures { ((result, written.new, marks.new), out.new) ≡ lossy_call text.now out.old }
{
    let reply = lossy_reply(lossy::write_lossy(text, out));
    *written = reply.written;
    *marks = reply.marks;
    reply.refusal
}

// The same, where every byte is looked up in the constant table of UTF-8's states, one after the other. It answers and writes what `rufflesquash_lossy`
// does, which is faster.
#[unsafe(no_mangle)]
pub extern "C" fn rufflesquash_lossy_by_table(
    text: &[u8],
    out: &mut [u8],
    written: &mut u64,
    marks: &mut u64,
) -> u64
    ensures { ((result, written.new, marks.new), out.new) ≡ lossy_by_table_call text.now out.old }
{
    let reply = lossy_reply(lossy::by_table::write_lossy(text, out));
    *written = reply.written;
    *marks = reply.marks;
    reply.refusal
}

// The length of the longest well-formed beginning of a text of any length. Refuses nothing.
#[unsafe(no_mangle)]
pub extern "C" fn rufflesquash_well_formed_prefix(text: &[u8]) -> u64
    ensures { result ≡ well_formed_prefix_call text.now }
{
    lossy::well_formed_prefix(text) as u64
}

// The text of the error that the payload of an ErrorResponse holds. Answers the refusal (25, 4).
#[unsafe(no_mangle)]
pub extern "C" fn rufflesquash_error_text(
    payload: &[u8],
    out: &mut [u8],
    written: &mut u64,
    marks: &mut u64,
) -> u64
    ensures { ((result, written.new, marks.new), out.new) ≡ error_text_call payload.now out.old }
{
    let reply = lossy_reply(messages::parse_error_response(payload, out));
    *written = reply.written;
    *marks = reply.marks;
    reply.refusal
}

// The position that a text names: two hexadecimal numbers of 1 to 8 digits with a slash between. Answers the refusal (22, 23, 24); refused, position
// is 0.
#[unsafe(no_mangle)]
pub extern "C" fn rufflesquash_parse_position(text: &[u8], position: &mut u64) -> u64
    ensures { (result, position.new) ≡ parse_position_call text.now }
{
    let reply = parsed_reply(Lsn::parse(text));
    *position = reply.value;
    reply.refusal
}

// The text of a position, at most 17 bytes. Answers the refusal (4).
#[unsafe(no_mangle)]
pub extern "C" fn rufflesquash_display_position(
    position: u64,
    out: &mut [u8],
    written: &mut u64,
) -> u64
    ensures { ((result, written.new), out.new) ≡ display_position_call position out.old }
{
    let reply = written_reply(Lsn(position).display(out));
    *written = reply.value;
    reply.refusal
}
