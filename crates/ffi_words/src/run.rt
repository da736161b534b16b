// A run as 64 words, and the run that any words stand for. SCOPE 9.1, 5.11.
// Kinds, refusals and flags are numbers here: the C interface.
ghost use Rattle.std.specs.Prelude.{◌≡◌};
ghost use Rattle.worker.specs.Run.{state_number};
ghost use Rattle.ffi_words.specs.Words.{state_of, settings_of, reader_of, reader_part, clock_of, progress_of, last_status_of, whole_message_of, offer_of, metrics_of, run_of, metrics_words, last_status_words, words_of};

use crate::event::{event_of, event_words};
use crate::layout;
use crate::message_reader::{header_words, reader_of};
use crate::word::{byte_of, flag_of, wide};
use framing::MessageReader;
use lsn::Lsn;
use metrics::Metrics;
use moment::Moment;
use progress::files::{Files, Progress};
use wire::word::flag;
use worker::{Clock, LastStatus, Offer, Run, Settings, State, Whole};

// Every other word is Ended.
pub fn state_of(n: u64) -> State
    ensures { result ≡ state_of n }
{
    match n {
        layout::STATE_OPENING => State::Opening,
        layout::STATE_TURN => State::Turn,
        layout::STATE_DRAIN => State::Drain,
        layout::STATE_READING => State::Reading,
        layout::STATE_WAITING => State::Waiting,
        layout::STATE_HANDLING => State::Handling,
        layout::STATE_OFFERING => State::Offering,
        _ => State::Ended,
    }
}

pub fn state_word(state: State) -> u64
    ensures { result ≡ state_number state }
{
    match state {
        State::Opening => layout::STATE_OPENING,
        State::Turn => layout::STATE_TURN,
        State::Drain => layout::STATE_DRAIN,
        State::Reading => layout::STATE_READING,
        State::Waiting => layout::STATE_WAITING,
        State::Handling => layout::STATE_HANDLING,
        State::Offering => layout::STATE_OFFERING,
        State::Ended => layout::STATE_ENDED,
    }
}

// Words 0 to 6, which are also what a host hands to opening.
pub fn settings_of(w: [u64; layout::SETTINGS_WORDS]) -> Settings
    ensures { result ≡ settings_of w }
{
    Settings {
        status_interval: w[layout::SETTINGS_STATUS_INTERVAL_NANOS],
        idle_wakeup_interval: w[layout::SETTINGS_IDLE_WAKEUP_INTERVAL_NANOS],
        max_message_size: w[layout::SETTINGS_MAX_MESSAGE_BYTES] as usize,
        has_stop: flag_of(w[layout::SETTINGS_HAS_STOP]),
        stop_at_lsn: Lsn(w[layout::SETTINGS_STOP_AT_LSN]),
        timing: flag_of(w[layout::SETTINGS_TIMING]),
        binary: flag_of(w[layout::SETTINGS_BINARY]),
    }
}

fn clock_of(w: [u64; layout::RUN_WORDS]) -> Clock
    ensures { result ≡ clock_of w }
{
    Clock {
        last: Moment(w[layout::RUN_LAST_MOMENT]),
        wait_began: Moment(w[layout::RUN_WAIT_BEGAN]),
        stall_began: Moment(w[layout::RUN_STALL_BEGAN]),
    }
}

// The first file's word stands with the signal's and the pending moment's, those of the other three after the counters.
pub fn progress_of(w: [u64; layout::RUN_WORDS]) -> Progress
    ensures { result ≡ progress_of w }
{
    let files = Files {
        zero: Lsn(w[layout::RUN_FILE_0]),
        one: Lsn(w[layout::RUN_FILE_1]),
        two: Lsn(w[layout::RUN_FILE_2]),
        three: Lsn(w[layout::RUN_FILE_3]),
    };
    Progress {
        files,
        signalled: flag_of(w[layout::RUN_SIGNALLED]),
        pending_since: Moment(w[layout::RUN_PENDING_SINCE]),
        timed: flag_of(w[layout::RUN_TIMED]),
    }
}

pub fn last_status_of(w: [u64; layout::RUN_WORDS]) -> LastStatus
    ensures { result ≡ last_status_of w }
{
    LastStatus {
        sent: flag_of(w[layout::RUN_STATUS_SENT]),
        position: Lsn(w[layout::RUN_STATUS_POSITION]),
        at: Moment(w[layout::RUN_STATUS_AT]),
    }
}

fn whole_of(w: [u64; layout::RUN_WORDS]) -> Whole
    ensures { result ≡ whole_message_of w }
{
    Whole {
        tag: byte_of(w[layout::RUN_WHOLE_TAG]),
        len: w[layout::RUN_WHOLE_LEN] as usize,
        in_wait: flag_of(w[layout::RUN_WHOLE_IN_WAIT]),
    }
}

fn offer_of(w: [u64; layout::RUN_WORDS]) -> Offer
    ensures { result ≡ offer_of w }
{
    let event = event_of(
        w[layout::RUN_EVENT],
        w[layout::RUN_EVENT_1],
        w[layout::RUN_EVENT_2],
        w[layout::RUN_EVENT_3],
        w[layout::RUN_EVENT_4],
        w[layout::RUN_EVENT_5],
        w[layout::RUN_EVENT_6],
    );
    Offer {
        event,
        stalled: flag_of(w[layout::RUN_STALLED]),
        stops: flag_of(w[layout::RUN_STOPS]),
        reached: Lsn(w[layout::RUN_REACHED]),
    }
}

pub fn metrics_of(w: [u64; layout::RUN_WORDS]) -> Metrics
    ensures { result ≡ metrics_of w }
{
    Metrics {
        events_forwarded: w[layout::RUN_EVENTS_FORWARDED],
        feedback_sent: w[layout::RUN_FEEDBACK_SENT],
        keepalive_replies: w[layout::RUN_KEEPALIVE_REPLIES],
        stall_count: w[layout::RUN_STALL_COUNT],
        stall_micros_total: w[layout::RUN_STALL_MICROS_TOTAL],
        last_applied_lsn: Lsn(w[layout::RUN_LAST_APPLIED_LSN]),
        last_wal_end: Lsn(w[layout::RUN_LAST_WAL_END]),
    }
}

// The reader's words among those of a run.
fn run_reader_of(w: [u64; layout::RUN_WORDS]) -> MessageReader
    ensures { result ≡ reader_of (reader_part w) }
{
    reader_of([
        w[layout::RUN_HEADER_0],
        w[layout::RUN_HEADER_1],
        w[layout::RUN_HEADER_2],
        w[layout::RUN_HEADER_3],
        w[layout::RUN_HEADER_4],
        w[layout::RUN_FILLED],
        w[layout::RUN_PAYLOAD_LEN],
        w[layout::RUN_READER_REFUSED],
    ])
}

// Every list of 64 words is some run.
pub fn run_of(w: [u64; layout::RUN_WORDS]) -> Run
    ensures { result ≡ run_of w }
{
    let settings = settings_of([
        w[layout::RUN_STATUS_INTERVAL_NANOS],
        w[layout::RUN_IDLE_WAKEUP_INTERVAL_NANOS],
        w[layout::RUN_MAX_MESSAGE_BYTES],
        w[layout::RUN_HAS_STOP],
        w[layout::RUN_STOP_AT_LSN],
        w[layout::RUN_TIMING],
        w[layout::RUN_BINARY],
    ]);
    let state = state_of(w[layout::RUN_STATE]);
    let reader = run_reader_of(w);
    let clock = clock_of(w);
    let progress = progress_of(w);
    let status = last_status_of(w);
    let whole = whole_of(w);
    let offer = offer_of(w);
    let metrics = metrics_of(w);
    Run {
        settings,
        state,
        reader,
        clock,
        progress,
        status,
        drained: w[layout::RUN_DRAINED],
        pending: flag_of(w[layout::RUN_PENDING]),
        whole,
        offer,
        metrics,
        server: Lsn(w[layout::RUN_SERVER]),
    }
}

pub fn last_status_words(s: LastStatus) -> [u64; layout::STATUS_WORDS]
    ensures { result ≡ last_status_words s }
{
    [flag(s.sent), s.position.0, s.at.0]
}

pub fn metrics_words(m: Metrics) -> [u64; layout::METRICS_WORDS]
    ensures { result ≡ metrics_words m }
{
    [
        m.events_forwarded,
        m.feedback_sent,
        m.keepalive_replies,
        m.stall_count,
        m.stall_micros_total,
        m.last_applied_lsn.0,
        m.last_wal_end.0,
    ]
}

// A table of the 64 words in their order, one to a line, which is why it is long: an array is not made of parts. They stand for the run that they
// were made of.
pub fn words_of(run: Run) -> [u64; layout::RUN_WORDS]
    ensures { (result ≡ words_of run) × (run_of result ≡ run) }
{
    let s = run.settings;
    let reader = run.reader;
    let bytes = reader.header;
    let header = header_words(bytes);
    let clock = run.clock;
    let progress = run.progress;
    let files = progress.files;
    let status = run.status;
    let whole = run.whole;
    let offer = run.offer;
    let offered = offer.event;
    let event = event_words(offered);
    let state = run.state;
    let metrics = run.metrics;
    [
        s.status_interval,
        s.idle_wakeup_interval,
        s.max_message_size as u64,
        flag(s.has_stop),
        s.stop_at_lsn.0,
        flag(s.timing),
        flag(s.binary),
        state_word(state),
        header[0],
        header[1],
        header[2],
        header[3],
        header[4],
        reader.filled as u64,
        reader.payload_len as u64,
        flag(reader.refused),
        clock.last.0,
        clock.wait_began.0,
        clock.stall_began.0,
        files.zero.0,
        flag(progress.signalled),
        progress.pending_since.0,
        flag(progress.timed),
        flag(status.sent),
        status.position.0,
        status.at.0,
        run.drained,
        flag(run.pending),
        wide(whole.tag),
        whole.len as u64,
        flag(whole.in_wait),
        event[0],
        event[1],
        event[2],
        event[3],
        event[4],
        event[5],
        event[6],
        flag(offer.stalled),
        flag(offer.stops),
        offer.reached.0,
        metrics.events_forwarded,
        metrics.feedback_sent,
        metrics.keepalive_replies,
        metrics.stall_count,
        metrics.stall_micros_total,
        metrics.last_applied_lsn.0,
        metrics.last_wal_end.0,
        files.one.0,
        files.two.0,
        files.three.0,
        run.server.0,
        0,
        0,
        0,
        0,
        0,
        0,
        0,
        0,
        0,
        0,
        0,
        0,
    ]
}
