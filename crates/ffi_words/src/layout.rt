// The numbers of the words that a host is handed and hands in: which word is which, and what a word's value names. SCOPE 9.1, 9.2. The C header, the
// declarations of the Rust crate and the tables of SCOPE 9 are made of this list by .ci/border.rs. A line with four hyphens begins a group: its
// title, a colon, a remark. No name of a group that is inside something leaves the archive. What the words mean is said in crate `thm_word_meaning`.

// ---- settings: intervals are nanoseconds, a flag is true unless 0

// How many words settings have.
pub const SETTINGS_WORDS: usize = 7;

// How long after a status the next one is due, at most 86,400 seconds.
pub const SETTINGS_STATUS_INTERVAL_NANOS: usize = 0;

// How long a wait lasts until a status is sent, at most 86,400 seconds.
pub const SETTINGS_IDLE_WAKEUP_INTERVAL_NANOS: usize = 1;

// The longest payload of a message in bytes; more than 1,073,741,824 counts as that.
pub const SETTINGS_MAX_MESSAGE_BYTES: usize = 2;

// Whether there is a stop position.
pub const SETTINGS_HAS_STOP: usize = 3;

// The stop position.
pub const SETTINGS_STOP_AT_LSN: usize = 4;

// Whether a status tells how long the position that it confirms had waited.
pub const SETTINGS_TIMING: usize = 5;

// Whether the query asks for binary values.
pub const SETTINGS_BINARY: usize = 6;

// ---- opaque words: a host keeps and copies them whole, and any words are those of some run, cell, reader or query

// How many words a run has.
pub const RUN_WORDS: usize = 64;

// How many words a progress cell has.
pub const CELL_WORDS: usize = 4;

// How many words a reader of messages has. All of them are 0 at the beginning of a message.
pub const READER_WORDS: usize = 8;

// How many words a simple query has of which the answer is read. All of them are 0 before its first message.
pub const QUERY_WORDS: usize = 4;

// ---- inside a run: settings: status interval, idle interval (nanoseconds), limit setting (bytes), whether there is a stop position, the stop
// position, timing, binary

pub const RUN_STATUS_INTERVAL_NANOS: usize = 0;

pub const RUN_IDLE_WAKEUP_INTERVAL_NANOS: usize = 1;

pub const RUN_MAX_MESSAGE_BYTES: usize = 2;

pub const RUN_HAS_STOP: usize = 3;

pub const RUN_STOP_AT_LSN: usize = 4;

pub const RUN_TIMING: usize = 5;

pub const RUN_BINARY: usize = 6;

// ---- inside a run: state

pub const RUN_STATE: usize = 7;

// ---- inside a run: reader: five header bytes, filled count, payload length, whether it has refused with 7

pub const RUN_HEADER_0: usize = 8;

pub const RUN_HEADER_1: usize = 9;

pub const RUN_HEADER_2: usize = 10;

pub const RUN_HEADER_3: usize = 11;

pub const RUN_HEADER_4: usize = 12;

pub const RUN_FILLED: usize = 13;

pub const RUN_PAYLOAD_LEN: usize = 14;

pub const RUN_READER_REFUSED: usize = 15;

// ---- inside a run: moments: last accepted, when the wait began, when the stall began

pub const RUN_LAST_MOMENT: usize = 16;

pub const RUN_WAIT_BEGAN: usize = 17;

pub const RUN_STALL_BEGAN: usize = 18;

// ---- inside a run: position of file 0; signal, pending moment, timing

pub const RUN_FILE_0: usize = 19;

pub const RUN_SIGNALLED: usize = 20;

pub const RUN_PENDING_SINCE: usize = 21;

pub const RUN_TIMED: usize = 22;

// ---- inside a run: last status: whether there was one, its position, its moment

pub const RUN_STATUS_SENT: usize = 23;

pub const RUN_STATUS_POSITION: usize = 24;

pub const RUN_STATUS_AT: usize = 25;

// ---- inside a run: messages drained; pending

pub const RUN_DRAINED: usize = 26;

pub const RUN_PENDING: usize = 27;

// ---- inside a run: last whole message: tag, payload length, whether it was read in a wait

pub const RUN_WHOLE_TAG: usize = 28;

pub const RUN_WHOLE_LEN: usize = 29;

pub const RUN_WHOLE_IN_WAIT: usize = 30;

// ---- inside a run: offer: the event's kind and six numbers, whether it is stalled, whether StoppedAt follows, the position reached

pub const RUN_EVENT: usize = 31;

pub const RUN_EVENT_1: usize = 32;

pub const RUN_EVENT_2: usize = 33;

pub const RUN_EVENT_3: usize = 34;

pub const RUN_EVENT_4: usize = 35;

pub const RUN_EVENT_5: usize = 36;

pub const RUN_EVENT_6: usize = 37;

pub const RUN_STALLED: usize = 38;

pub const RUN_STOPS: usize = 39;

pub const RUN_REACHED: usize = 40;

// ---- inside a run: metrics, in the order of 4.4

pub const RUN_EVENTS_FORWARDED: usize = 41;

pub const RUN_FEEDBACK_SENT: usize = 42;

pub const RUN_KEEPALIVE_REPLIES: usize = 43;

pub const RUN_STALL_COUNT: usize = 44;

pub const RUN_STALL_MICROS_TOTAL: usize = 45;

pub const RUN_LAST_APPLIED_LSN: usize = 46;

pub const RUN_LAST_WAL_END: usize = 47;

// ---- inside a run: positions of files 1, 2 and 3

pub const RUN_FILE_1: usize = 48;

pub const RUN_FILE_2: usize = 49;

pub const RUN_FILE_3: usize = 50;

// ---- inside a run: the server's end that a page shows

pub const RUN_SERVER: usize = 51;

// ---- inside a run: spare: 0 and ignored

pub const RUN_SPARE: usize = 52;

// ---- inside a cell: position, signal, pending moment, timing

pub const CELL_APPLIED: usize = 0;

pub const CELL_SIGNALLED: usize = 1;

pub const CELL_PENDING_SINCE: usize = 2;

pub const CELL_TIMED: usize = 3;

// ---- inside a reader: five header bytes, filled count, payload length, whether it has refused with 7

pub const READER_HEADER_0: usize = 0;

pub const READER_HEADER_1: usize = 1;

pub const READER_HEADER_2: usize = 2;

pub const READER_HEADER_3: usize = 3;

pub const READER_HEADER_4: usize = 4;

pub const READER_FILLED: usize = 5;

pub const READER_PAYLOAD_LEN: usize = 6;

pub const READER_REFUSED: usize = 7;

// ---- inside a query: whether an error came, how many of its bytes are kept, how many it had

pub const QUERY_FAILED: usize = 0;

pub const QUERY_KEPT: usize = 1;

pub const QUERY_ERROR_LEN: usize = 2;

// ---- inside a query: spare: 0 and ignored

pub const QUERY_SPARE: usize = 3;

// ---- files: they are numbered from 0, and every other number is none

// How many files a run has.
pub const FILES: u64 = 4;

// How many positions are handed in where each file is reported for, in the order of their numbers.
pub const POSITIONS_WORDS: usize = 4;

// ---- states of a run: every other number is `STATE_ENDED`

// The server has not yet begun the stream.
pub const STATE_OPENING: u64 = 0;

// A round begins.
pub const STATE_TURN: u64 = 1;

// Messages at hand are looked for.
pub const STATE_DRAIN: u64 = 2;

// A message is read.
pub const STATE_READING: u64 = 3;

// Nothing was at hand.
pub const STATE_WAITING: u64 = 4;

// A whole message is there.
pub const STATE_HANDLING: u64 = 5;

// An event is offered to the queue.
pub const STATE_OFFERING: u64 = 6;

// No further step is accepted.
pub const STATE_ENDED: u64 = 7;

// ---- the queue to the consumer: every other number is `QUEUE_CLOSED`

// An event is taken.
pub const QUEUE_FREE: u64 = 0;

// No event is taken now.
pub const QUEUE_FULL: u64 = 1;

// Events are dropped.
pub const QUEUE_CLOSED: u64 = 2;

// ---- what a step answers

// How many words the answer of a step has.
pub const ANSWER_WORDS: usize = 12;

// The refusal's number, 0 for none.
pub const ANSWER_REFUSAL: usize = 0;

// How many unread bytes were taken.
pub const ANSWER_TAKEN: usize = 1;

// How many bytes at the front of the output are to be sent.
pub const ANSWER_WRITTEN: usize = 2;

// Whether a waiting time is told, 1 or 0.
pub const ANSWER_WAITED_TOLD: usize = 3;

// The waiting time in nanoseconds.
pub const ANSWER_WAITED_NANOS: usize = 4;

// The event's kind.
pub const ANSWER_EVENT: usize = 5;

// The event's first number.
pub const ANSWER_EVENT_1: usize = 6;

// The event's second number.
pub const ANSWER_EVENT_2: usize = 7;

// The event's third number.
pub const ANSWER_EVENT_3: usize = 8;

// The event's fourth number.
pub const ANSWER_EVENT_4: usize = 9;

// The event's fifth number.
pub const ANSWER_EVENT_5: usize = 10;

// The event's sixth number.
pub const ANSWER_EVENT_6: usize = 11;

// ---- kinds of events, each with its numbers: every other kind is none. Times are microseconds from 2000-01-01

// No event.
pub const EVENT_NOTHING: u64 = 0;

// KeepAlive: wal_end, server time, whether a reply is requested.
pub const EVENT_KEEP_ALIVE: u64 = 1;

// Begin: final position, commit time, xid.
pub const EVENT_BEGIN: u64 = 2;

// Commit: position, end position, commit time.
pub const EVENT_COMMIT: u64 = 3;

// Message: whether it is transactional, position, the prefix's place in payload and its length, the content's place and its length.
pub const EVENT_MESSAGE: u64 = 4;

// XLogData: wal_start, wal_end, server time, the data's place in payload and its length.
pub const EVENT_XLOG_DATA: u64 = 5;

// StoppedAt: the position that reached the stop position.
pub const EVENT_STOPPED_AT: u64 = 6;

// ---- when to step again

// How many words the answer has.
pub const NEXT_WORDS: usize = 2;

// Its kind.
pub const NEXT_KIND: usize = 0;

// Of `NEXT_FROM` the moment, else 0.
pub const NEXT_MOMENT: usize = 1;

// ---- kinds of next steps

// The next step moves.
pub const NEXT_AT_ONCE: u64 = 0;

// Steps from a moment on move; it may lie at or before the last accepted one.
pub const NEXT_FROM: u64 = 1;

// No step moves until something comes.
pub const NEXT_ON_INPUT: u64 = 2;

// The run has ended.
pub const NEXT_NEVER: u64 = 3;

// ---- counters of a run: each starts again at 0 after its largest value

// How many counters a run has.
pub const METRICS_WORDS: usize = 7;

// Events handed on.
pub const METRICS_EVENTS_FORWARDED: usize = 0;

// Statuses sent.
pub const METRICS_FEEDBACK_SENT: usize = 1;

// Statuses sent in reply to a keepalive.
pub const METRICS_KEEPALIVE_REPLIES: usize = 2;

// Stalls begun.
pub const METRICS_STALL_COUNT: usize = 3;

// Microseconds of stalls that ended.
pub const METRICS_STALL_MICROS_TOTAL: usize = 4;

// The position last confirmed.
pub const METRICS_LAST_APPLIED_LSN: usize = 5;

// The server's end last told.
pub const METRICS_LAST_WAL_END: usize = 6;

// ---- the last status

// How many words are told of the last status.
pub const STATUS_WORDS: usize = 3;

// Whether there was one, 1 or 0.
pub const STATUS_SENT: usize = 0;

// The position that it confirmed.
pub const STATUS_POSITION: usize = 1;

// The moment of its step.
pub const STATUS_AT: usize = 2;

// ---- the error that ended a run

// How many words are told of the error.
pub const ERROR_WORDS: usize = 2;

// Whether a server error ended the run, 1 or 0.
pub const ERROR_GIVEN: usize = 0;

// How many bytes it has at the front of the payload buffer, at most the length that was handed in.
pub const ERROR_LEN: usize = 1;

// ---- what a read answers

// How many words the answer of a read has.
pub const READ_WORDS: usize = 5;

// The refusal's number, 0 for none.
pub const READ_REFUSAL: usize = 0;

// How many unread bytes were taken.
pub const READ_TAKEN: usize = 1;

// Whether a message is whole, 1 or 0.
pub const READ_WHOLE: usize = 2;

// The whole message's tag.
pub const READ_TAG: usize = 3;

// The length of its payload, which stands at the front of payload.
pub const READ_LEN: usize = 4;

// ---- what a message of a simple query answers

// How many words the answer has.
pub const FOLD_WORDS: usize = 3;

// Its kind.
pub const FOLD_KIND: usize = 0;

// Its value, which its kind says, else 0.
pub const FOLD_VALUE: usize = 1;

// Of `FOLD_FAILED` how many bytes the error had, else 0.
pub const FOLD_ERROR_LEN: usize = 2;

// ---- kinds of answers to a simple query, each with its value: the first two go on; the others end the query, and its words are then those of a
// new one

// Nothing to tell.
pub const FOLD_MORE: u64 = 0;

// A row: how many columns it has.
pub const FOLD_ROW: u64 = 1;

// The query is done.
pub const FOLD_READY: u64 = 2;

// The server refused it: how many bytes of its error stand at the front of error.
pub const FOLD_FAILED: u64 = 3;

// The message is refused: the refusal's number, 20.
pub const FOLD_REFUSED: u64 = 4;

// ---- a column of a DataRow

// How many words are told of a column.
pub const COLUMN_WORDS: usize = 3;

// Its kind.
pub const COLUMN_KIND: usize = 0;

// The value's place in payload, else 0.
pub const COLUMN_FROM: usize = 1;

// The value's length, else 0.
pub const COLUMN_LEN: usize = 2;

// ---- kinds of columns of a DataRow

// The row has no such column.
pub const COLUMN_ABSENT: u64 = 0;

// The column is null.
pub const COLUMN_NULL: u64 = 1;

// The column has a value.
pub const COLUMN_VALUE: u64 = 2;

// ---- an authentication request

// How many words are told of a request.
pub const AUTH_WORDS: usize = 4;

// The refusal's number (21), 0 for none.
pub const AUTH_REFUSAL: usize = 0;

// The code in two's complement.
pub const AUTH_CODE: usize = 1;

// The place of the rest in payload.
pub const AUTH_FROM: usize = 2;

// The rest's length.
pub const AUTH_LEN: usize = 3;

// ---- a field of an error

// How many words are told of a field.
pub const FIELD_WORDS: usize = 3;

// Whether the field is given, 1 or 0.
pub const FIELD_GIVEN: usize = 0;

// Its place in payload.
pub const FIELD_FROM: usize = 1;

// Its length.
pub const FIELD_LEN: usize = 2;

// ---- fields of an error by their numbers

// The severity.
pub const FIELD_SEVERITY: usize = 0;

// The SQLSTATE.
pub const FIELD_CODE: usize = 1;

// The message.
pub const FIELD_MESSAGE: usize = 2;

// The detail.
pub const FIELD_DETAIL: usize = 3;

// The hint.
pub const FIELD_HINT: usize = 4;

// The position in the query.
pub const FIELD_POSITION: usize = 5;

// The context.
pub const FIELD_WHERE: usize = 6;

// The schema.
pub const FIELD_SCHEMA: usize = 7;

// The table.
pub const FIELD_TABLE: usize = 8;

// The column.
pub const FIELD_COLUMN: usize = 9;

// The data type.
pub const FIELD_DATA_TYPE: usize = 10;

// The constraint.
pub const FIELD_CONSTRAINT: usize = 11;

// The source file of the server.
pub const FIELD_FILE: usize = 12;

// The line in that file.
pub const FIELD_LINE: usize = 13;

// The routine in that file.
pub const FIELD_ROUTINE: usize = 14;

// ---- kinds of refusals

// No refusal has the number.
pub const KIND_NONE: u64 = 0;

// Usage: the call was not used as it is to be.
pub const KIND_USAGE: u64 = 1;

// Io: the input ended within a message, or before one.
pub const KIND_IO: u64 = 2;

// Protocol: the bytes are not what the protocol says, or do not fit what is held.
pub const KIND_PROTOCOL: u64 = 3;

// Server: the server sent an error.
pub const KIND_SERVER: u64 = 4;

// MessageTooLarge: a message is longer than the limit.
pub const KIND_MESSAGE_TOO_LARGE: u64 = 5;

// ParseLsn: a text is no position.
pub const KIND_PARSE_LSN: u64 = 6;
