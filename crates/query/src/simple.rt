// The fold of simple_query: one call for each whole message. The payload of the last ErrorResponse stands at the front of a lent buffer, as
// far as that has room; its whole length is answered too, so that a cut one is not taken for whole.
ghost use Rattle.std.specs.Prelude.{◌≡◌, Ok};
ghost use Rattle.query.specs.DataRow.{columns_of};
ghost use Rattle.query.specs.Fold.{fresh, answer_outcome, data_row_answer, end_answer, message_of};

use crate::data_row;
use error::Refusal;

// Whether an ErrorResponse came, how many of its bytes stand in the buffer, and how many it had. The three stand side by side as in the C interface's words,
// of which any are the words of some query, and come back as they were (the theorem `QueryWords`).
#[derive(Clone, Copy)]
pub struct SimpleQuery {
    pub failed: bool,
    pub kept: usize,
    pub len: usize,
}

#[derive(Clone, Copy)]
pub enum Answer {
    More,
    DataRow(usize),
    Ready,
    // The query ended with an error: how many of its bytes stand in the buffer, and how many it had.
    Failed(usize, usize),
}

// What a message answers, and the query after it.
#[derive(Clone, Copy)]
pub struct Step {
    pub query: SimpleQuery,
    pub answer: Result<Answer, Refusal>,
}

impl SimpleQuery {
    pub fn new() -> SimpleQuery
        ensures { result ≡ fresh }
    {
        SimpleQuery {
            failed: false,
            kept: 0,
            len: 0,
        }
    }

    // The next message. Each row is handed on at once; what ends the query leaves a new one.
    pub fn message(self, tag: u8, payload: &[u8], error: &mut [u8]) -> Step
        ensures { (result.query, answer_outcome result.answer, error.new) ≡ message_of self tag payload.now error.old }
    {
        match tag {
            b'D' => self.with_data_row(payload),
            b'E' => {
                let kept = wire::store::copy(error, payload);
                let query = SimpleQuery {
                    failed: true,
                    kept,
                    len: payload.len(),
                };
                Step {
                    query,
                    answer: Ok(Answer::More),
                }
            }
            b'Z' => {
                let answer = self.end();
                Step {
                    query: SimpleQuery::new(),
                    answer: Ok(answer),
                }
            }
            _ => Step {
                query: self,
                answer: Ok(Answer::More),
            },
        }
    }

    fn with_data_row(self, payload: &[u8]) -> Step
        ensures { (result.query, answer_outcome result.answer) ≡ data_row_answer self (columns_of payload.now) }
    {
        match data_row::parse_data_row(payload) {
            Ok(n) => Step {
                query: self,
                answer: Ok(Answer::DataRow(n)),
            },
            Err(r) => Step {
                query: SimpleQuery::new(),
                answer: Err(r),
            },
        }
    }

    fn end(self) -> Answer
        ensures { answer_outcome (Ok result) ≡ end_answer self }
    {
        if self.failed {
            Answer::Failed(self.kept, self.len)
        } else {
            Answer::Ready
        }
    }
}
