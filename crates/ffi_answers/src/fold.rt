// The answers to a simple query, message by message. Any words are the words of some query. SCOPE 3.11.
// Kinds, refusals and flags are numbers here: the C interface.
ghost use Rattle.std.specs.Prelude.{◌≡◌};
ghost use Rattle.query.specs.Fold.{answer_outcome};
ghost use Rattle.ffi_answers.specs.Fold.{simple_query_of, query_words, fold_words};

use error::Refusal;
use ffi_words::layout;
use ffi_words::word::flag_of;
use query::simple::{Answer, SimpleQuery};
use wire::word::flag;

pub fn query_of(w: [u64; layout::QUERY_WORDS]) -> SimpleQuery
    ensures { result ≡ simple_query_of w }
{
    SimpleQuery {
        failed: flag_of(w[layout::QUERY_FAILED]),
        kept: w[layout::QUERY_KEPT] as usize,
        len: w[layout::QUERY_ERROR_LEN] as usize,
    }
}

// The words stand for the query that they were made of.
pub fn query_words(q: SimpleQuery) -> [u64; layout::QUERY_WORDS]
    ensures { (result ≡ query_words q) × (simple_query_of result ≡ q) }
{
    [flag(q.failed), q.kept as u64, q.len as u64, 0]
}

pub fn fold_words(answer: Result<Answer, Refusal>) -> [u64; layout::FOLD_WORDS]
    ensures { result ≡ fold_words (answer_outcome answer) }
{
    match answer {
        Ok(Answer::More) => [layout::FOLD_MORE, 0, 0],
        Ok(Answer::DataRow(n)) => [layout::FOLD_ROW, n as u64, 0],
        Ok(Answer::Ready) => [layout::FOLD_READY, 0, 0],
        Ok(Answer::Failed(kept, len)) => [layout::FOLD_FAILED, kept as u64, len as u64],
        Err(r) => [layout::FOLD_REFUSED, r.number() as u64, 0],
    }
}
