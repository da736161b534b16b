#![tactic(auto)]
// A run: what it holds, what a step is given, what it answers. The rules are in specs/.
mod changes;
mod deliver;
mod ends;
pub mod handle;
mod receive;
mod rounds;
pub mod session;
mod status;
pub mod steps;
mod wait;

use error::Refusal;
use framing::MessageReader;
use lsn::Lsn;
use metrics::Metrics;
use moment::Moment;
use progress::files::{FileRefusal, Progress};

// The settings of a run; intervals in nanoseconds.
#[derive(Clone, Copy)]
pub struct Settings {
    pub status_interval: u64,
    pub idle_wakeup_interval: u64,
    pub max_message_size: usize,
    // A flag beside the position, no `Option`: thm_any_calls `bounds_of` reads both fields.
    pub has_stop: bool,
    pub stop_at_lsn: Lsn,
    pub timing: bool,
    pub binary: bool,
}

#[derive(Clone, Copy)]
pub enum State {
    Opening,
    Turn,
    Drain,
    Reading,
    Waiting,
    Handling,
    Offering,
    Ended,
}

// The queue to the consumer, as a step finds it.
#[derive(Clone, Copy)]
pub enum Queue {
    Free,
    Full,
    Closed,
}

// Parts begin at a place of the payload buffer.
#[derive(Clone, Copy)]
pub enum Event {
    // No event is a case here, no `Option` around: the definitions under thm_any_calls name it.
    Nothing,
    KeepAlive {
        wal_end: Lsn,
        server_time: i64,
        reply_requested: bool,
    },
    Begin {
        final_lsn: Lsn,
        commit_time: i64,
        xid: u32,
    },
    Commit {
        lsn: Lsn,
        end_lsn: Lsn,
        commit_time: i64,
    },
    Message {
        transactional: bool,
        lsn: Lsn,
        prefix_from: usize,
        prefix_len: usize,
        content_from: usize,
        content_len: usize,
    },
    XLogData {
        wal_start: Lsn,
        wal_end: Lsn,
        server_time: i64,
        from: usize,
        len: usize,
    },
    StoppedAt {
        reached: Lsn,
    },
}

// What the data of an XLogData give: an event, and the position that it reaches.
#[derive(Clone, Copy)]
pub struct DataEvent {
    pub event: Event,
    pub reached: Lsn,
}

// What a step is given beside the lent bytes.
#[derive(Clone, Copy)]
pub struct Input {
    pub moment: Moment,
    pub client_time: i64,
    pub stop: bool,
    pub queue: Queue,
    pub ended: bool,
}

// Moments: of the last accepted step, of the wait's beginning, of the stall's.
#[derive(Clone, Copy)]
pub struct Clock {
    pub last: Moment,
    pub wait_began: Moment,
    pub stall_began: Moment,
}

// The last status: whether there was one, the position it confirmed, its moment.
#[derive(Clone, Copy)]
pub struct LastStatus {
    // A flag beside the position, no `Option`: thm_any_calls `Seen` says both fields of every run.
    pub sent: bool,
    pub position: Lsn,
    pub at: Moment,
}

// The last whole message: its tag, its payload's length, and whether it was read in a wait.
#[derive(Clone, Copy)]
pub struct Whole {
    pub tag: u8,
    pub len: usize,
    pub in_wait: bool,
}

// The event that is offered, whether its stall has begun, and whether StoppedAt follows it.
#[derive(Clone, Copy)]
pub struct Offer {
    pub event: Event,
    pub stalled: bool,
    pub stops: bool,
    pub reached: Lsn,
}

#[derive(Clone, Copy)]
pub struct Run {
    pub settings: Settings,
    pub state: State,
    pub reader: MessageReader,
    pub clock: Clock,
    pub progress: Progress,
    pub status: LastStatus,
    pub drained: u64,
    pub pending: bool,
    pub whole: Whole,
    pub offer: Offer,
    pub metrics: Metrics,
    // The server's end that the last message told which was handled without refusal.
    pub server: Lsn,
}

// What a step answers.
#[derive(Clone, Copy)]
pub struct Stepped {
    pub run: Run,
    pub verdict: Result<(), Refusal>,
    pub taken: usize,
    pub event: Event,
    pub written: usize,
    // How long a confirmed position had waited, in nanoseconds, where that is told.
    pub waited: Option<u64>,
}

// What opening answers; the run counts only where the query was written.
#[derive(Clone, Copy)]
pub struct Opened {
    pub run: Run,
    pub written: Result<usize, Refusal>,
}

#[derive(Clone, Copy)]
pub struct AlreadyOpen {
    pub run: Run,
    pub verdict: Result<(), Refusal>,
}

// What a report answers; a refused one leaves the run as it was.
#[derive(Clone, Copy)]
pub struct Reporting {
    pub run: Run,
    pub verdict: Result<(), FileRefusal>,
}
