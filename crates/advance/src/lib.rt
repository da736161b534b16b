#![tactic(auto)]
// Up to four steps in one call, with the same input: until one of them has something to tell.
mod at_hand;

ghost use Rattle.std.specs.Prelude.{◌≡◌, ℕ, List};
ghost use Rattle.worker.specs.Answer.{lent, outcome_by};
ghost use Rattle.worker.specs.Step.{step_of};
ghost use Rattle.advance.specs.Advance.{is_nothing, tells, one_more, advance_of};
ghost use Rattle.worker.specs.Events.{said_by};

use crate::at_hand::{applies, at_hand, hands_on};
use worker::steps::step;
use worker::{Event, Input, Run, Stepped};

fn is_nothing(event: Event) -> bool
    ensures { result ≡ is_nothing (said_by event) }
{
    matches!(event, Event::Nothing)
}

// Whether a step's answer has a refusal, bytes for the server, or an event.
fn tells(stepped: Stepped) -> bool
    ensures { (p o : List ℕ) → result ≡ tells (outcome_by stepped p o) }
{
    let verdict = stepped.verdict;
    match verdict {
        Ok(()) => {
            if stepped.written == 0 {
                let event = stepped.event;
                return !is_nothing(event);
            }
            true
        }
        Err(_) => true,
    }
}

// A step more where the last told nothing: lent the bytes after those taken so far, and the buffers as they were left.
fn one_more(
    last: Stepped,
    input: Input,
    unread: &[u8],
    payload: &mut [u8],
    out: &mut [u8],
) -> Stepped
    ensures { outcome_by result payload.new out.new
        ≡ one_more input unread.now (outcome_by last payload.old out.old) }
{
    if tells(last) {
        return last;
    }
    let taken = last.taken.min(unread.len());
    let mut next = step(last.run, input, &unread[taken..], payload, out);
    next.taken = taken + next.taken;
    next
}

fn four_steps(run: Run, input: Input, unread: &[u8], payload: &mut [u8], out: &mut [u8]) -> Stepped
    ensures { outcome_by result payload.new out.new
        ≡ advance_of run input (lent unread.now payload.old out.old) }
{
    let first = step(run, input, unread, payload, out);
    // `one_more` would hand it on three times, and each time copy it.
    if tells(first) {
        return first;
    }
    let second = one_more(first, input, unread, payload, out);
    let third = one_more(second, input, unread, payload, out);
    one_more(third, input, unread, payload, out)
}

// A message that lies whole in the unread bytes, and that four steps would only hand on, is handed on at once.
pub fn advance(run: Run, input: Input, unread: &[u8], payload: &mut [u8], out: &mut [u8]) -> Stepped
    ensures { outcome_by result payload.new out.new
        ≡ advance_of run input (lent unread.now payload.old out.old) }
{
    let moment = input.moment;
    let queue = input.queue;
    if let Some(message) = at_hand(unread) {
        if applies(run, moment, queue, payload.len(), out.len(), message) {
            let taken = 5 + message.len;
            wire::store::copy(payload, &unread[5..taken]);
            return hands_on(run, moment, message, taken);
        }
    }
    four_steps(run, input, unread, payload, out)
}
