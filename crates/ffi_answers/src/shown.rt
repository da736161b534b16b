// What the service page shows, read off a run's words. SCOPE 5.12.
ghost use Rattle.std.specs.Prelude.{◌≡◌};
ghost use Rattle.run_page.specs.RunPage.{shown_by};
ghost use Rattle.ffi_words.specs.Words.{run_of};

use ffi_words::layout;
use ffi_words::run::{last_status_of, metrics_of, progress_of, state_of, state_word};
use lsn::Lsn;
use page::Page;

pub fn page_of(w: [u64; layout::RUN_WORDS]) -> Page
    ensures { result ≡ shown_by (run_of w) }
{
    let progress = progress_of(w);
    let position = progress.position();
    let status = last_status_of(w);
    let confirmed = status.position;
    let metrics = metrics_of(w);
    let state = state_of(w[layout::RUN_STATE]);
    Page {
        position,
        sent: status.sent,
        confirmed,
        server: Lsn(w[layout::RUN_SERVER]),
        events: metrics.events_forwarded,
        stalls: metrics.stall_count,
        state: state_word(state),
    }
}
