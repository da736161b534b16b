// The names of `layout` that no conversion uses, each at its place: words by their names, in the order in which crate `thm_word_meaning` says them. A name
// with another number is refused here.
ghost use Rattle.std.specs.Prelude.{[], ◌∷◌, ◌≡◌, get_or};

use crate::layout;

// Refusal, taken, written, whether a wait is told, the wait, the event.
pub fn answer_by_name(w: [u64; layout::ANSWER_WORDS]) -> [u64; layout::ANSWER_WORDS]
    ensures { result
        ≡ get_or w 0 0 ∷ get_or w 1 0 ∷ get_or w 2 0 ∷ get_or w 3 0 ∷ get_or w 4 0 ∷ get_or w 5 0
        ∷ get_or w 6 0 ∷ get_or w 7 0 ∷ get_or w 8 0 ∷ get_or w 9 0 ∷ get_or w 10 0 ∷ get_or w 11 0 ∷ [] }
{
    [
        w[layout::ANSWER_REFUSAL],
        w[layout::ANSWER_TAKEN],
        w[layout::ANSWER_WRITTEN],
        w[layout::ANSWER_WAITED_TOLD],
        w[layout::ANSWER_WAITED_NANOS],
        w[layout::ANSWER_EVENT],
        w[layout::ANSWER_EVENT_1],
        w[layout::ANSWER_EVENT_2],
        w[layout::ANSWER_EVENT_3],
        w[layout::ANSWER_EVENT_4],
        w[layout::ANSWER_EVENT_5],
        w[layout::ANSWER_EVENT_6],
    ]
}

// Events, statuses, replies, stalls, microseconds of stalls, position last confirmed, the server's end.
pub fn metrics_by_name(w: [u64; layout::METRICS_WORDS]) -> [u64; layout::METRICS_WORDS]
    ensures { result ≡ get_or w 0 0 ∷ get_or w 1 0 ∷ get_or w 2 0 ∷ get_or w 3 0 ∷ get_or w 4 0 ∷ get_or w 5 0 ∷ get_or w 6 0 ∷ [] }
{
    [
        w[layout::METRICS_EVENTS_FORWARDED],
        w[layout::METRICS_FEEDBACK_SENT],
        w[layout::METRICS_KEEPALIVE_REPLIES],
        w[layout::METRICS_STALL_COUNT],
        w[layout::METRICS_STALL_MICROS_TOTAL],
        w[layout::METRICS_LAST_APPLIED_LSN],
        w[layout::METRICS_LAST_WAL_END],
    ]
}

// Whether one was sent, its position, its moment.
pub fn status_by_name(w: [u64; layout::STATUS_WORDS]) -> [u64; layout::STATUS_WORDS]
    ensures { result ≡ get_or w 0 0 ∷ get_or w 1 0 ∷ get_or w 2 0 ∷ [] }
{
    [
        w[layout::STATUS_SENT],
        w[layout::STATUS_POSITION],
        w[layout::STATUS_AT],
    ]
}

// Whether there is one, and its length.
pub fn error_by_name(w: [u64; layout::ERROR_WORDS]) -> [u64; layout::ERROR_WORDS]
    ensures { result ≡ get_or w 0 0 ∷ get_or w 1 0 ∷ [] }
{
    [w[layout::ERROR_GIVEN], w[layout::ERROR_LEN]]
}

// The kind and the moment.
pub fn next_by_name(w: [u64; layout::NEXT_WORDS]) -> [u64; layout::NEXT_WORDS]
    ensures { result ≡ get_or w 0 0 ∷ get_or w 1 0 ∷ [] }
{
    [w[layout::NEXT_KIND], w[layout::NEXT_MOMENT]]
}

// Refusal, taken, whether a message is whole, its tag, its length.
pub fn read_by_name(w: [u64; layout::READ_WORDS]) -> [u64; layout::READ_WORDS]
    ensures { result ≡ get_or w 0 0 ∷ get_or w 1 0 ∷ get_or w 2 0 ∷ get_or w 3 0 ∷ get_or w 4 0 ∷ [] }
{
    [
        w[layout::READ_REFUSAL],
        w[layout::READ_TAKEN],
        w[layout::READ_WHOLE],
        w[layout::READ_TAG],
        w[layout::READ_LEN],
    ]
}

// The kind, the value, how many bytes an error had.
pub fn fold_by_name(w: [u64; layout::FOLD_WORDS]) -> [u64; layout::FOLD_WORDS]
    ensures { result ≡ get_or w 0 0 ∷ get_or w 1 0 ∷ get_or w 2 0 ∷ [] }
{
    [
        w[layout::FOLD_KIND],
        w[layout::FOLD_VALUE],
        w[layout::FOLD_ERROR_LEN],
    ]
}

// The kind, the place, the length.
pub fn column_by_name(w: [u64; layout::COLUMN_WORDS]) -> [u64; layout::COLUMN_WORDS]
    ensures { result ≡ get_or w 0 0 ∷ get_or w 1 0 ∷ get_or w 2 0 ∷ [] }
{
    [
        w[layout::COLUMN_KIND],
        w[layout::COLUMN_FROM],
        w[layout::COLUMN_LEN],
    ]
}

// Refusal, code, place, length.
pub fn auth_by_name(w: [u64; layout::AUTH_WORDS]) -> [u64; layout::AUTH_WORDS]
    ensures { result ≡ get_or w 0 0 ∷ get_or w 1 0 ∷ get_or w 2 0 ∷ get_or w 3 0 ∷ [] }
{
    [
        w[layout::AUTH_REFUSAL],
        w[layout::AUTH_CODE],
        w[layout::AUTH_FROM],
        w[layout::AUTH_LEN],
    ]
}

// Whether it is given, its place, its length.
pub fn field_by_name(w: [u64; layout::FIELD_WORDS]) -> [u64; layout::FIELD_WORDS]
    ensures { result ≡ get_or w 0 0 ∷ get_or w 1 0 ∷ get_or w 2 0 ∷ [] }
{
    [
        w[layout::FIELD_GIVEN],
        w[layout::FIELD_FROM],
        w[layout::FIELD_LEN],
    ]
}

// A free, a full and a closed queue.
pub fn queues() -> [u64; 3]
    ensures { result ≡ 0 ∷ 1 ∷ 2 ∷ [] }
{
    [layout::QUEUE_FREE, layout::QUEUE_FULL, layout::QUEUE_CLOSED]
}

// No refusal, usage, input and output, protocol, server, a message too large, a position that is none.
pub fn kinds() -> [u64; 7]
    ensures { result ≡ 0 ∷ 1 ∷ 2 ∷ 3 ∷ 4 ∷ 5 ∷ 6 ∷ [] }
{
    [
        layout::KIND_NONE,
        layout::KIND_USAGE,
        layout::KIND_IO,
        layout::KIND_PROTOCOL,
        layout::KIND_SERVER,
        layout::KIND_MESSAGE_TOO_LARGE,
        layout::KIND_PARSE_LSN,
    ]
}

// The fields of an error, in the order of their letters S C M D H P W s t c d n F L R.
pub fn fields() -> [usize; 15]
    ensures { result ≡ 0 ∷ 1 ∷ 2 ∷ 3 ∷ 4 ∷ 5 ∷ 6 ∷ 7 ∷ 8 ∷ 9 ∷ 10 ∷ 11 ∷ 12 ∷ 13 ∷ 14 ∷ [] }
{
    [
        layout::FIELD_SEVERITY,
        layout::FIELD_CODE,
        layout::FIELD_MESSAGE,
        layout::FIELD_DETAIL,
        layout::FIELD_HINT,
        layout::FIELD_POSITION,
        layout::FIELD_WHERE,
        layout::FIELD_SCHEMA,
        layout::FIELD_TABLE,
        layout::FIELD_COLUMN,
        layout::FIELD_DATA_TYPE,
        layout::FIELD_CONSTRAINT,
        layout::FIELD_FILE,
        layout::FIELD_LINE,
        layout::FIELD_ROUTINE,
    ]
}
