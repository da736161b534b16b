#![tactic(auto)]
// The position that a status would confirm, and what is known of reports that were not yet confirmed. Module `files` has the four files of a run,
// over this cell.
pub mod files;

ghost use Rattle.std.specs.Prelude.{◌≡◌, false};
ghost use Rattle.progress.specs.Progress.{cell, no_moment, cell_position, cell_pending, stored_by, is_none, raise_of, looked_of, reported_of, carried_of};

use lsn::Lsn;
use moment::Moment;

// A pending moment of 0 stands for none, and is no `Option`: thm_any_calls `pending_since` has the moment itself.
#[derive(Clone, Copy)]
pub struct ProgressCell {
    pub applied: Lsn,
    pub signalled: bool,
    pub pending_since: Moment,
    pub timed: bool,
}

// The cell after a raise, and whether the signal is new.
#[derive(Clone, Copy)]
pub struct Raised {
    pub cell: ProgressCell,
    pub wake: bool,
}

// The cell with its signal cleared, and its position.
#[derive(Clone, Copy)]
pub struct Looked {
    pub cell: ProgressCell,
    pub applied: Lsn,
}

// The cell after a status, and the moment that was pending.
#[derive(Clone, Copy)]
pub struct Reported {
    pub cell: ProgressCell,
    pub since: Moment,
}

fn is_none(m: Moment) -> bool
    ensures { result ≡ is_none m }
{
    m.0 == 0
}

impl ProgressCell {
    pub fn new(start: Lsn, timed: bool) -> ProgressCell
        ensures { result ≡ cell start false no_moment timed }
    {
        ProgressCell {
            applied: start,
            signalled: false,
            pending_since: Moment(0),
            timed,
        }
    }

    pub fn load(self) -> Lsn
        ensures { result ≡ cell_position self }
    {
        self.applied
    }

    pub fn pending_since(self) -> Moment
        ensures { result ≡ cell_pending self }
    {
        self.pending_since
    }

    fn stored(self, moment: Moment) -> Moment
        ensures { result ≡ stored_by self moment }
    {
        let pending = self.pending_since;
        if self.timed {
            if is_none(pending) {
                return moment;
            }
            return pending;
        }
        pending
    }

    // A report of a position at a moment.
    pub fn raise(self, position: Lsn, moment: Moment) -> Raised
        ensures { result ≡ raise_of self position moment }
    {
        let applied = self.applied;
        if applied.is_below(position) {
            let pending = self.stored(moment);
            let cell = ProgressCell {
                applied: position,
                signalled: true,
                pending_since: pending,
                timed: self.timed,
            };
            return Raised {
                cell,
                wake: !self.signalled,
            };
        }
        Raised {
            cell: self,
            wake: false,
        }
    }

    pub fn take_signal(self) -> Looked
        ensures { result ≡ looked_of self }
    {
        let applied = self.applied;
        let mut cell = self;
        cell.signalled = false;
        Looked { cell, applied }
    }

    // A position was sent that was read at a moment.
    pub fn take_pending(self, sent: Lsn, loaded_at: Moment) -> Reported
        ensures { result ≡ reported_of self sent loaded_at }
    {
        let applied = self.applied;
        let since = self.pending_since;
        if sent.is_below(applied) {
            let cell = ProgressCell {
                applied,
                signalled: self.signalled,
                pending_since: loaded_at,
                timed: self.timed,
            };
            return Reported { cell, since };
        }
        let cell = ProgressCell {
            applied,
            signalled: self.signalled,
            pending_since: Moment(0),
            timed: self.timed,
        };
        Reported { cell, since }
    }

    fn with_pending(self, since: Moment) -> ProgressCell
        ensures { result ≡ cell self.applied self.signalled since self.timed }
    {
        let applied = self.applied;
        ProgressCell {
            applied,
            signalled: self.signalled,
            pending_since: since,
            timed: self.timed,
        }
    }

    // A pending moment from an earlier session.
    pub fn carry_pending(self, since: Moment) -> ProgressCell
        ensures { result ≡ carried_of self since }
    {
        let pending = self.pending_since;
        if self.timed {
            if is_none(since) {
                return self;
            }
            if is_none(pending) {
                return self.with_pending(since);
            }
            if since.is_before(pending) {
                return self.with_pending(since);
            }
            return self;
        }
        self
    }
}
