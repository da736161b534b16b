#![tactic(auto)]
// Reads messages from pieces of input: a tag byte, a length that counts itself, a payload.
pub mod front;
pub mod tag;

ghost use Rattle.std.specs.Prelude.{◌≡◌, ◌+◌, ◌-◌, ◌<◌, ◌≤◌, length, get_or};
ghost use Rattle.wire.specs.Bytes.{put};
ghost use Rattle.frames.specs.Message.{length_field};
ghost use Rattle.error.specs.Refusal.{number_of};
ghost use Rattle.wire.specs.Answer.{maybe};
ghost use Rattle.framing.specs.Length.{payload_length};
ghost use Rattle.framing.specs.Read.{said_by, limit_of, fresh, shut, at_byte, unfinished, payload_of, judged_of, header_of, read_of};

use error::Refusal;

// The largest limit.
pub const MAX_MESSAGE_SIZE: usize = 1073741824;

const FIRST_NEGATIVE: usize = wire::field::FIRST_NEGATIVE_32 as usize;

// What a reader holds of a message: its header bytes, how many bytes came, header and payload together, the payload's length once the header
// is there, and whether a message over the limit was met.
#[derive(Clone, Copy)]
pub struct MessageReader {
    pub header: [u8; 5],
    pub filled: usize,
    pub payload_len: usize,
    pub refused: bool,
}

// A whole message: its tag, and its payload's length at the buffer's front.
#[derive(Clone, Copy)]
pub struct Whole {
    pub tag: u8,
    pub len: usize,
}

// A read answers None where the message lacks bytes.
#[derive(Clone, Copy)]
pub struct ReadStep {
    pub answer: Result<Option<Whole>, Refusal>,
    pub reader: MessageReader,
    pub taken: usize,
}

impl MessageReader {
    pub fn new() -> MessageReader
        ensures { result ≡ fresh }
    {
        MessageReader {
            header: [0; 5],
            filled: 0,
            payload_len: 0,
            refused: false,
        }
    }

    // The first header byte.
    pub fn tag(self) -> u8
        ensures { result ≡ get_or self.header 0 0 }
    {
        self.header[0]
    }
}

// A setting above the largest limit counts as that limit.
pub fn limit_of(setting: usize) -> usize
    ensures { result ≡ limit_of setting }
{
    setting.min(MAX_MESSAGE_SIZE)
}

fn stopped() -> MessageReader
    ensures { result ≡ shut }
{
    MessageReader {
        header: [0; 5],
        filled: 0,
        payload_len: 0,
        refused: true,
    }
}

fn at_byte(header: [u8; 5], filled: usize, n: usize) -> MessageReader
    ensures { result ≡ at_byte header filled n }
{
    MessageReader {
        header,
        filled,
        payload_len: n,
        refused: false,
    }
}

// What an unfinished message answers.
fn lacking(unread: usize, ended: bool, refusal: Refusal) -> Result<Option<Whole>, Refusal>
    ensures { said_by result ≡ unfinished (number_of refusal) unread ended }
{
    if unread == 0 {
        if ended {
            return Err(refusal);
        }
        return Ok(None);
    }
    Ok(None)
}

fn length_of(header: &[u8; 5]) -> u32
    ensures { result ≡ length_field header.now }
{
    match wire::field::read_u32(header, 1) {
        Some(v) => v,
        None => 0,
    }
}

// The payload's length by a length field, None where that is negative or below 4.
fn payload_len(field: u32) -> Option<usize>
    ensures { maybe result ≡ payload_length field }
{
    let n = field as usize;
    if FIRST_NEGATIVE <= n {
        return None;
    }
    if n < 4 {
        return None;
    }
    Some(n - 4)
}

// The header with the bytes written over it from `from` on.
fn head_with(header: [u8; 5], from: usize, src: &[u8]) -> [u8; 5]
    requires { from + length src.now ≤ 5 }
    ensures { result ≡ put header from src.now }
{
    let mut h = header;
    wire::store::copy(&mut h[from..], src);
    h
}

fn behind_header(filled: usize) -> usize
    ensures { result ≡ filled - 5 }
{
    if filled < 5 { 0 } else { filled - 5 }
}

// Takes the payload bytes that the message lacks. The tail of the buffer, from the filled mark on, is lent to the copying leaf.
fn fill_payload(r: MessageReader, unread: &[u8], ended: bool, payload: &mut [u8]) -> ReadStep
    ensures { (said_by result.answer, result.reader, result.taken, payload.new)
        ≡ payload_of r unread.now ended payload.old }
{
    let len = r.payload_len;
    let n = len.min(payload.len());
    let filled = r.filled;
    let have = behind_header(filled);
    let h = r.header;
    let tag = r.tag();
    if n <= have {
        return ReadStep {
            answer: Ok(Some(Whole { tag, len: n })),
            reader: MessageReader::new(),
            taken: 0,
        };
    }
    let k = (n - have).min(unread.len());
    wire::store::copy(&mut payload[have..], &unread[..k]);
    if have + k < n {
        return ReadStep {
            answer: lacking(unread.len(), ended, Refusal::EofInPayload),
            reader: at_byte(h, filled + k, len),
            taken: k,
        };
    }
    ReadStep {
        answer: Ok(Some(Whole { tag, len: n })),
        reader: MessageReader::new(),
        taken: k,
    }
}

// Judges the length of a whole header, and begins the payload.
fn judge(limit: usize, header: [u8; 5], unread: &[u8], payload: &mut [u8]) -> ReadStep
    ensures { (said_by result.answer, result.reader, result.taken, payload.new)
        ≡ judged_of limit header unread.now payload.old }
{
    let Some(len) = payload_len(length_of(&header)) else {
        return ReadStep {
            answer: Err(Refusal::InvalidLength),
            reader: MessageReader::new(),
            taken: 0,
        };
    };
    if limit < len {
        return ReadStep {
            answer: Err(Refusal::MessageTooLarge),
            reader: stopped(),
            taken: 0,
        };
    }
    fill_payload(at_byte(header, 5, len), unread, false, payload)
}

// Takes the header bytes that the message lacks.
fn fill_header(
    limit: usize,
    r: MessageReader,
    unread: &[u8],
    ended: bool,
    payload: &mut [u8],
) -> ReadStep
    requires { r.filled < 5 }
    ensures { (said_by result.answer, result.reader, result.taken, payload.new)
        ≡ header_of limit r unread.now ended payload.old }
{
    let filled = r.filled;
    let k = (5 - filled).min(unread.len());
    let old = r.header;
    let h = head_with(old, filled, &unread[..k]);
    if filled + k < 5 {
        return ReadStep {
            answer: lacking(unread.len(), ended, Refusal::EofInHeader),
            reader: at_byte(h, filled + k, r.payload_len),
            taken: k,
        };
    }
    let s = judge(limit, h, &unread[k..], payload);
    let answer = s.answer;
    let reader = s.reader;
    ReadStep {
        answer,
        reader,
        taken: k + s.taken,
    }
}

impl MessageReader {
    // Takes unread bytes up to the end of the message. A whole message's payload stands at the buffer's front.
    pub fn read(
        self,
        max_message_size: usize,
        unread: &[u8],
        ended: bool,
        payload: &mut [u8],
    ) -> ReadStep
        ensures { (said_by result.answer, result.reader, result.taken, payload.new)
            ≡ read_of max_message_size self unread.now ended payload.old }
    {
        let limit = limit_of(max_message_size);
        if payload.len() < limit {
            return ReadStep {
                answer: Err(Refusal::PayloadBufferTooShort),
                reader: self,
                taken: 0,
            };
        }
        if self.refused {
            return ReadStep {
                answer: Err(Refusal::MessageTooLarge),
                reader: self,
                taken: 0,
            };
        }
        if self.filled < 5 {
            return fill_header(limit, self, unread, ended, payload);
        }
        fill_payload(self, unread, ended, payload)
    }
}
