// The rows in an event's data, for a host: a head, and one column, description or identifier at a place, each of which answers the place of the next
// one, 0 where it is refused. Any data and any place are answered. SCOPE 9.6, 3.13.
ghost use Rattle.std.specs.Prelude.{◌≡◌};
ghost use Rattle.rows.specs.Words.{row_call, column_call, description_call, identifier_call};

use rows::layout;
use rows::words::{column_reply, description_reply, identifier_reply, row_reply};

// ---- rows: in the data of an event of kind `EVENT_XLOG_DATA`, or in any data of pgoutput, protocol version 1. Any data and any place are answered
//
// Refusals: 26 where a field is cut short or a count or length is negative, 27 where a letter stands that may not, the first of them in the order of
// the bytes. Refused, all other words are 0.

// The row that the data hold, judged to its end; what follows it is not read. Answers the refusal (26, 27). Data that begin with B, C or M are no
// row.
#[unsafe(no_mangle)]
pub extern "C" fn rufflesquash_row(data: &[u8], row: &mut [u64; layout::ROW_WORDS]) -> u64
    ensures { (result, row.new) ≡ row_call «data».now }
{
    let reply = row_reply(rows::read_row(data));
    let words = reply.words;
    *row = words;
    reply.refusal
}

// The column of a tuple at a place. Answers the place of the next one, 0 where it is refused.
//
// From the place that a head names on, so many calls as the head counts are not refused, each at the place that the last one answered.
#[unsafe(no_mangle)]
pub extern "C" fn rufflesquash_row_column(
    data: &[u8],
    at: usize,
    column: &mut [u64; layout::TUPLE_WORDS],
) -> u64
    ensures { (result, column.new) ≡ column_call «data».now at }
{
    let reply = column_reply(rows::items::column_at(data, at));
    let words = reply.words;
    *column = words;
    reply.next
}

// The description at a place, a column of a Relation. Answers the place of the next one, 0 where it is refused.
#[unsafe(no_mangle)]
pub extern "C" fn rufflesquash_row_description(
    data: &[u8],
    at: usize,
    description: &mut [u64; layout::DESCRIPTION_WORDS],
) -> u64
    ensures { (result, description.new) ≡ description_call «data».now at }
{
    let reply = description_reply(rows::items::description_at(data, at));
    let words = reply.words;
    *description = words;
    reply.next
}

// The relation of a Truncate at a place. Answers the place of the next one, 0 where it is refused.
#[unsafe(no_mangle)]
pub extern "C" fn rufflesquash_row_identifier(
    data: &[u8],
    at: usize,
    identifier: &mut [u64; layout::IDENTIFIER_WORDS],
) -> u64
    ensures { (result, identifier.new) ≡ identifier_call «data».now at }
{
    let reply = identifier_reply(rows::items::identifier_at(data, at));
    let words = reply.words;
    *identifier = words;
    reply.next
}
