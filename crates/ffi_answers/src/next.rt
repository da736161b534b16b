// When to step again. SCOPE 5.9.
// Kinds, refusals and flags are numbers here: the C interface.
ghost use Rattle.std.specs.Prelude.{◌≡◌};
ghost use Rattle.schedule.specs.NextStep.{next_by};
ghost use Rattle.ffi_answers.specs.Next.{next_words};

use ffi_words::layout;
use schedule::NextStep;

pub fn next_words(next: NextStep) -> [u64; layout::NEXT_WORDS]
    ensures { result ≡ next_words (next_by next) }
{
    match next {
        NextStep::AtOnce => [layout::NEXT_AT_ONCE, 0],
        NextStep::From(m) => [layout::NEXT_FROM, m.0],
        NextStep::OnInput => [layout::NEXT_ON_INPUT, 0],
        NextStep::Never => [layout::NEXT_NEVER, 0],
    }
}
