// Opening hours. SCOPE 9.8.
ghost use Rattle.std.specs.Prelude.{◌≡◌};
ghost use Rattle.hours.specs.Words.{hours_call};

use hours::words::answer_reply;
use hours::{Hours, layout};

// ---- opening hours

// Whether a venue's hall is open at a moment, and the first later moment at which that changes. Answers the refusal (32, 33, 34, in this order);
// refused, all words are 0.
//
// For each weekday, Monday first, the minutes from 0 to 1440 at which its window opens and closes: the opening minute is open, the closing minute
// shut, equal minutes mean shut all day. The offset is the minutes, -840 to 840, by which the venue's clock is ahead of UTC. Moments are microseconds
// from 2000-01-01 00:00 UTC, a Saturday, at most 2^62 from it; the moment of the change may lie past that. A window to 1440 and one from 0 on the
// next day meet without a change.
#[unsafe(no_mangle)]
pub extern "C" fn rufflesquash_hours(
    opens: &[u64; layout::HOURS_DAYS],
    closes: &[u64; layout::HOURS_DAYS],
    offset: i64,
    moment: i64,
    answer: &mut [u64; layout::HOURS_WORDS],
) -> u64
    ensures { (result, answer.new) ≡ hours_call opens.now closes.now «offset» «moment» }
{
    let asked = Hours {
        opens: *opens,
        closes: *closes,
        offset,
    };
    let reply = answer_reply(asked.ask(moment));
    let words = reply.words;
    *answer = words;
    reply.refusal
}
