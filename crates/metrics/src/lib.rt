#![tactic(auto)]
// Counters of a run.
ghost use Rattle.std.specs.Prelude.{◌≡◌};
ghost use Rattle.metrics.specs.Metrics.{no_counts, with_event, with_status, with_reply, with_stall, with_stall_end, with_end};

use lsn::Lsn;

// The Rust's names: events handed on, statuses sent, those in reply to a keepalive, stalls begun, microseconds of stalls that ended, the position
// last confirmed, the server's end last told.
#[derive(Clone, Copy)]
pub struct Metrics {
    pub events_forwarded: u64,
    pub feedback_sent: u64,
    pub keepalive_replies: u64,
    pub stall_count: u64,
    pub stall_micros_total: u64,
    pub last_applied_lsn: Lsn,
    pub last_wal_end: Lsn,
}

impl Metrics {
    pub fn new() -> Metrics
        ensures { result ≡ no_counts }
    {
        Metrics {
            events_forwarded: 0,
            feedback_sent: 0,
            keepalive_replies: 0,
            stall_count: 0,
            stall_micros_total: 0,
            last_applied_lsn: Lsn(0),
            last_wal_end: Lsn(0),
        }
    }

    pub fn record_event_forwarded(mut self) -> Metrics
        ensures { result ≡ with_event self }
    {
        self.events_forwarded = std::num::wrapping_add_u64(self.events_forwarded, 1);
        self
    }

    pub fn record_feedback_sent(mut self, applied: Lsn) -> Metrics
        ensures { result ≡ with_status self applied }
    {
        self.feedback_sent = std::num::wrapping_add_u64(self.feedback_sent, 1);
        self.last_applied_lsn = applied;
        self
    }

    pub fn record_keepalive_reply(mut self) -> Metrics
        ensures { result ≡ with_reply self }
    {
        self.keepalive_replies = std::num::wrapping_add_u64(self.keepalive_replies, 1);
        self
    }

    pub fn record_stall_begin(mut self) -> Metrics
        ensures { result ≡ with_stall self }
    {
        self.stall_count = std::num::wrapping_add_u64(self.stall_count, 1);
        self
    }

    pub fn record_stall_end(mut self, micros: u64) -> Metrics
        ensures { result ≡ with_stall_end self micros }
    {
        self.stall_micros_total = std::num::wrapping_add_u64(self.stall_micros_total, micros);
        self
    }

    pub fn set_last_wal_end(mut self, wal_end: Lsn) -> Metrics
        ensures { result ≡ with_end self wal_end }
    {
        self.last_wal_end = wal_end;
        self
    }
}
