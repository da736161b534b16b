// What a read of the server's messages answers. SCOPE 3.3.
// Kinds, refusals and flags are numbers here: the C interface.
ghost use Rattle.std.specs.Prelude.{◌≡◌};
ghost use Rattle.framing.specs.Read.{said_by};
ghost use Rattle.ffi_answers.specs.Read.{read_words};

use error::Refusal;
use ffi_words::layout;
use framing::Whole;

pub fn read_words(answer: Result<Option<Whole>, Refusal>, taken: usize) -> [u64; layout::READ_WORDS]
    ensures { result ≡ read_words (said_by answer) taken }
{
    match answer {
        Ok(None) => [0, taken as u64, 0, 0, 0],
        Ok(Some(whole)) => [0, taken as u64, 1, whole.tag as u64, whole.len as u64],
        Err(r) => [r.number() as u64, taken as u64, 0, 0, 0],
    }
}
