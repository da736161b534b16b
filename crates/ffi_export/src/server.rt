// What a host reads of the server outside the stream: messages, authentication requests, the answers to a simple query, errors; and kinds of
// refusals. SCOPE 9.4. Beside the words at exit a contract has the reader or the query that they stand for.
ghost use Rattle.std.specs.Prelude.{◌≡◌};
ghost use Rattle.ffi_answers.specs.Fold.{query_standing, query_message_call};
ghost use Rattle.ffi_answers.specs.Kinds.{kind_by, transient_at};
ghost use Rattle.ffi_answers.specs.Parts.{auth_request_call, data_row_call, data_column_call, error_field_call};
ghost use Rattle.ffi_answers.specs.Read.{reader_standing, read_call};

use ffi_answers::fold::{fold_words, query_of, query_words};
use ffi_answers::kind::{kind_word, transient_word};
use ffi_answers::part::{auth_words, column_reply, field_words};
use ffi_answers::read::read_words;
use ffi_answers::reply::written_reply;
use ffi_words::layout;
use ffi_words::message_reader::{reader_of, reader_words};
use messages::ErrorFields;

// ---- messages of the server, before and after the stream

// One read of the server's messages, as the steps of a run do it. Refusals: 3, 6, 7, 8, 9.
//
// The payload buffer has at least the limit's bytes and is lent unchanged to every read.
#[unsafe(no_mangle)]
pub extern "C" fn rufflesquash_read(
    reader: &mut [u64; layout::READER_WORDS],
    max_message_size: usize,
    unread: &[u8],
    ended: bool,
    payload: &mut [u8],
    answer: &mut [u64; layout::READ_WORDS],
)
    ensures { (reader_standing reader.new, answer.new, payload.new)
        ≡ read_call reader.old max_message_size unread.now ended payload.old }
{
    let before = reader_of(*reader);
    let step = before.read(max_message_size, unread, ended, payload);
    let after = step.reader;
    *reader = reader_words(after);
    let said = step.answer;
    *answer = read_words(said, step.taken);
}

// A whole message in answer to a simple query. The front of error takes the bytes of a server's error.
#[unsafe(no_mangle)]
pub extern "C" fn rufflesquash_query_message(
    query: &mut [u64; layout::QUERY_WORDS],
    tag: u8,
    payload: &[u8],
    error: &mut [u8],
    answer: &mut [u64; layout::FOLD_WORDS],
)
    ensures { (query_standing query.new, answer.new, error.new)
        ≡ query_message_call query.old tag payload.now error.old }
{
    let before = query_of(*query);
    let step = before.message(tag, payload, error);
    let after = step.query;
    *query = query_words(after);
    let said = step.answer;
    *answer = fold_words(said);
}

// How many columns a DataRow has. Answers the refusal (20); refused, columns is 0.
#[unsafe(no_mangle)]
pub extern "C" fn rufflesquash_data_row(payload: &[u8], columns: &mut u64) -> u64
    ensures { (result, columns.new) ≡ data_row_call payload.now }
{
    let reply = written_reply(query::data_row::parse_data_row(payload));
    *columns = reply.value;
    reply.refusal
}

// A column of a DataRow, from 0. Answers the refusal (20); refused, all words are 0.
#[unsafe(no_mangle)]
pub extern "C" fn rufflesquash_column(
    payload: &[u8],
    index: usize,
    column: &mut [u64; layout::COLUMN_WORDS],
) -> u64
    ensures { (result, column.new) ≡ data_column_call payload.now index }
{
    let reply = column_reply(query::data_row::column(payload, index));
    let words = reply.words;
    *column = words;
    reply.refusal
}

// An authentication request.
#[unsafe(no_mangle)]
pub extern "C" fn rufflesquash_auth_request(payload: &[u8], answer: &mut [u64; layout::AUTH_WORDS])
    ensures { answer.new ≡ auth_request_call payload.now }
{
    let request = messages::parse_auth_request(payload);
    *answer = auth_words(request);
}

// A field of an ErrorResponse by its number.
#[unsafe(no_mangle)]
pub extern "C" fn rufflesquash_error_field(
    payload: &[u8],
    field: usize,
    part: &mut [u64; layout::FIELD_WORDS],
)
    ensures { part.new ≡ error_field_call payload.now field }
{
    let fields = ErrorFields::parse(payload);
    let one = fields.field(field);
    *part = field_words(one);
}

// ---- kinds by the number of a refusal

// The kind of a refusal by its number, `KIND_NONE` where no refusal has it.
#[unsafe(no_mangle)]
pub extern "C" fn rufflesquash_refusal_kind(refusal: u64) -> u64
    ensures { result ≡ kind_by refusal }
{
    kind_word(refusal)
}

// Whether a new connection may help after a refusal, by its number: 1 or 0.
#[unsafe(no_mangle)]
pub extern "C" fn rufflesquash_refusal_is_transient(refusal: u64) -> u64
    ensures { result ≡ transient_at refusal }
{
    transient_word(refusal)
}
