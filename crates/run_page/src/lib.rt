#![tactic(auto)]
// The service page of a run.
ghost use Rattle.std.specs.Prelude.{◌≡◌, Some, None};
ghost use Rattle.wire.specs.Bytes.{pick};
ghost use Rattle.error.specs.Writer.{writing, outcome};
ghost use Rattle.page.specs.Page.{page_of};
ghost use Rattle.run_page.specs.RunPage.{shown_by};

use error::Refusal;
use lsn::Lsn;
use page::Page;
use worker::{LastStatus, Run};

// The position that the last status confirmed, where there was one.
pub fn confirmed(status: LastStatus) -> Option<Lsn>
    ensures { result ≡ pick status.sent (Some status.position) None }
{
    if status.sent {
        Some(status.position)
    } else {
        None
    }
}

// The values that the page shows.
pub fn page_of(run: Run) -> Page
    ensures { result ≡ shown_by run }
{
    let position = worker::session::position(run);
    let status = run.status;
    let server = run.server;
    let metrics = run.metrics;
    Page {
        position,
        sent: status.sent,
        confirmed: status.position,
        server,
        events: metrics.events_forwarded,
        stalls: metrics.stall_count,
        state: run.state as u64,
    }
}

// Writes the page.
pub fn write(run: Run, out: &mut [u8]) -> Result<usize, Refusal>
    ensures { (outcome result, out.new) ≡ writing 0 (page_of (shown_by run)) out.old }
{
    let page = page_of(run);
    page.write(out)
}

#[cfg(test)]
mod tests {
    use super::*;
    use moment::Moment;

    #[test]
    fn confirmed_of_a_status(rt: HostRuntime) {
        // 0/0 is a position like any other.
        for position in [Lsn(0), Lsn(7), Lsn(u64::MAX)] {
            let at = Moment(1);
            let unsent = LastStatus {
                sent: false,
                position,
                at,
            };
            assert!(rt; confirmed(unsent).is_none());
            let sent = LastStatus {
                sent: true,
                position,
                at,
            };
            assert!(rt; confirmed(sent) == Some(position));
        }
    }
}
