// Each refusal's number and kind, and what the kind is asked: 1 an error of input or output, 2 of the protocol, 4 the server's, 8 a message that is
// too large, 16 one after which a new connection may help.
ghost use Rattle.std.specs.Prelude.{◌≤◌};

use crate::told;
use error::Refusal;
use std::io::Stdout;

fn bit(on: bool, v: u64) -> u64
    ensures { result ≤ v }
{
    if on { v } else { 0 }
}

fn asked(r: Refusal) -> u64 {
    bit(r.is_io(), 1)
        + bit(r.is_protocol(), 2)
        + bit(r.is_server(), 4)
        + bit(r.is_message_too_large(), 8)
        + bit(r.is_transient(), 16)
}

fn kind(output: Stdout, r: Refusal) {
    let k = r.kind();
    told(
        output,
        b'K',
        r.number() as u64,
        k.number() as u64,
        asked(r),
        0,
    );
}

// Of calls, of reads, of messages and of others.
const REFUSALS: [Refusal; 25] = [
    Refusal::IntervalTooLong,
    Refusal::RunEnded,
    Refusal::PayloadBufferTooShort,
    Refusal::OutputTooShort,
    Refusal::MomentOutOfOrder,
    Refusal::InvalidLength,
    Refusal::MessageTooLarge,
    Refusal::EofInHeader,
    Refusal::EofInPayload,
    Refusal::EmptyCopyData,
    Refusal::XLogDataTooShort,
    Refusal::KeepaliveTooShort,
    Refusal::UnknownCopyData,
    Refusal::TruncatedI8,
    Refusal::TruncatedI32,
    Refusal::TruncatedI64,
    Refusal::UnterminatedPrefix,
    Refusal::ContentTooShort,
    Refusal::ServerError,
    Refusal::MalformedDataRow,
    Refusal::AuthRequestTooShort,
    Refusal::MissingSlash,
    Refusal::InvalidHighPart,
    Refusal::InvalidLowPart,
    Refusal::InputTooLong,
];

pub(crate) fn all(output: Stdout) {
    for r in REFUSALS {
        kind(output, r);
    }
}
