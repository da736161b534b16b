// Opening a run, a run that is already open, reports of files between steps, and views.
ghost use Rattle.std.specs.Prelude.{◌≡◌};
ghost use Rattle.wire.specs.Answer.{maybe};
ghost use Rattle.progress.specs.Progress.{cell_position};
ghost use Rattle.worker.specs.Answer.{opened_by, already_open_by, reporting_by, error_part_of};
ghost use Rattle.worker.specs.Session.{bad_interval, open_of, already_open_of, report_of};
ghost use Rattle.worker.specs.Run.{cell_in, fresh_run};
ghost use Rattle.worker.specs.Step.{reaches};

use crate::changes::{offer, with_progress};
use crate::steps::is_ended;
use crate::{
    AlreadyOpen, Clock, Event, LastStatus, Opened, Reporting, Run, Settings, State, Whole,
};
use error::Refusal;
use framing::MessageReader;
use framing::tag::is_error;
use lsn::Lsn;
use metrics::Metrics;
use moment::Moment;
use progress::files::Progress;
use request::start_replication;

// A run before its first step.
fn fresh_run(settings: Settings, state: State, start: Lsn) -> Run
    ensures { result ≡ fresh_run settings state start }
{
    let reader = MessageReader::new();
    let clock = Clock {
        last: Moment(0),
        wait_began: Moment(0),
        stall_began: Moment(0),
    };
    let progress = Progress::new(start, settings.timing);
    let status = LastStatus {
        sent: false,
        position: Lsn(0),
        at: Moment(0),
    };
    let whole = Whole {
        tag: 0,
        len: 0,
        in_wait: false,
    };
    let offer = offer(Event::Nothing, false, false, Lsn(0));
    let metrics = Metrics::new();
    Run {
        settings,
        state,
        reader,
        clock,
        progress,
        status,
        drained: 0,
        pending: false,
        whole,
        offer,
        metrics,
        server: Lsn(0),
    }
}

// The status and the idle interval may be at most a day, in nanoseconds.
pub const LONGEST_INTERVAL: u64 = 86400000000000;

fn bad_interval(settings: Settings) -> bool
    ensures { result ≡ bad_interval settings }
{
    if LONGEST_INTERVAL < settings.status_interval {
        return true;
    }
    LONGEST_INTERVAL < settings.idle_wakeup_interval
}

// The query of `start_replication` is written, from `position`; confirmations begin at `start`, whatever the query asks for.
pub fn open(
    settings: Settings,
    slot: &[u8],
    publications: &[&[u8]],
    position: Lsn,
    start: Lsn,
    out: &mut [u8],
) -> Opened
    ensures { opened_by result out.new
        ≡ open_of settings slot.now publications.now position start out.old }
{
    let run = fresh_run(settings, State::Opening, start);
    if bad_interval(settings) {
        return Opened {
            run,
            written: Err(Refusal::IntervalTooLong),
        };
    }
    let written = start_replication(settings.binary, slot, publications, position, out);
    Opened { run, written }
}

// For a stream that has begun already: no query is written.
pub fn already_open(settings: Settings, start: Lsn) -> AlreadyOpen
    ensures { already_open_by result ≡ already_open_of settings start }
{
    let run = fresh_run(settings, State::Turn, start);
    if bad_interval(settings) {
        return AlreadyOpen {
            run,
            verdict: Err(Refusal::IntervalTooLong),
        };
    }
    AlreadyOpen {
        run,
        verdict: Ok(()),
    }
}

// The consumer reports that a file, 0 to 3, has applied all before a position.
pub fn report(run: Run, file: u64, position: Lsn, moment: Moment) -> Reporting
    ensures { reporting_by result ≡ report_of run file position moment }
{
    let before = run.progress;
    let filed = before.report(file, position, moment);
    let after = filed.progress;
    let verdict = filed.verdict;
    let next = with_progress(after, run);
    Reporting { run: next, verdict }
}

// Whether a position is at or above the stop position.
pub fn reaches(run: Run, position: Lsn) -> bool
    ensures { result ≡ reaches run position }
{
    if run.settings.has_stop {
        return !position.is_below(run.settings.stop_at_lsn);
    }
    false
}

pub fn state(run: Run) -> State
    ensures { result ≡ run.state }
{
    run.state
}

pub fn metrics(run: Run) -> Metrics
    ensures { result ≡ run.metrics }
{
    run.metrics
}

// What a status would confirm now.
pub fn position(run: Run) -> Lsn
    ensures { result ≡ cell_position (cell_in run) }
{
    let progress = run.progress;
    progress.position()
}

pub fn last_sent(run: Run) -> LastStatus
    ensures { result ≡ run.status }
{
    run.status
}

// The ErrorResponse that ended the run with 19, where one did: its payload's length at the payload buffer's front.
pub fn error_part(run: Run) -> Option<usize>
    ensures { maybe result ≡ error_part_of run }
{
    let state = run.state;
    if is_ended(state) {
        if is_error(run.whole.tag) {
            return Some(run.whole.len);
        }
        return None;
    }
    None
}
