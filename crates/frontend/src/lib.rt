#![tactic(auto)]
// Writers of the messages that a client sends.
ghost use Rattle.std.specs.Prelude.{◌≡◌, ◌+◌, ◌≤◌, length};
ghost use Rattle.wire.specs.Bytes.{placed};
ghost use Rattle.frames.specs.Message.{framed};
ghost use Rattle.error.specs.Inputs.{total};
ghost use Rattle.error.specs.Writer.{writing, outcome};
ghost use Rattle.frontend.specs.Code.{header, strings};
ghost use Rattle.frontend.specs.Frontend.{query, copy_data, copy_done_message, terminate, status_body, status_update, startup};

use error::{INPUT_LIMIT, Refusal};
use lsn::Lsn;

// Places a header at the front, and answers the place after it.
fn place_header(out: &mut [u8], tag: u8, n: usize) -> usize
    requires { n + 5 ≤ length out.old }
    ensures { (result, out.new) ≡ placed out.old 0 (header tag n) }
{
    let a = wire::field::write_u8(out, 0, tag);
    wire::store::write_be(out, a, 4, (n + 4) as u64)
}

// A message of a tag and a payload.
fn write_framed(tag: u8, payload: &[u8], out: &mut [u8]) -> Result<usize, Refusal>
    ensures { (outcome result, out.new) ≡ writing (length payload.now) (framed tag payload.now) out.old }
{
    if INPUT_LIMIT < payload.len() {
        return Err(Refusal::InputTooLong);
    }
    let n = payload.len() + 5;
    if out.len() < n {
        return Err(Refusal::OutputTooShort);
    }
    let a = place_header(out, tag, payload.len());
    wire::store::place(out, a, payload);
    Ok(n)
}

pub fn write_query(text: &[u8], out: &mut [u8]) -> Result<usize, Refusal>
    ensures { (outcome result, out.new) ≡ writing (length text.now) (query text.now) out.old }
{
    if INPUT_LIMIT < text.len() {
        return Err(Refusal::InputTooLong);
    }
    let n = text.len() + 6;
    if out.len() < n {
        return Err(Refusal::OutputTooShort);
    }
    let a = place_header(out, b'Q', text.len() + 1);
    let b = wire::store::place(out, a, text);
    wire::field::write_u8(out, b, 0);
    Ok(n)
}

pub fn write_copy_data(payload: &[u8], out: &mut [u8]) -> Result<usize, Refusal>
    ensures { (outcome result, out.new) ≡ writing (length payload.now) (copy_data payload.now) out.old }
{
    write_framed(b'd', payload, out)
}

pub fn write_copy_done(out: &mut [u8]) -> Result<usize, Refusal>
    ensures { (outcome result, out.new) ≡ writing 0 copy_done_message out.old }
{
    write_framed(b'c', b"", out)
}

pub fn write_terminate(out: &mut [u8]) -> Result<usize, Refusal>
    ensures { (outcome result, out.new) ≡ writing 0 terminate out.old }
{
    write_framed(b'X', b"", out)
}

// Places the body of a status update, and answers the place after it.
fn place_status(out: &mut [u8], to: usize, position: u64, client_time: i64, reply: bool) -> usize
    requires { to + 34 ≤ length out.old }
    ensures { (result, out.new) ≡ placed out.old to (status_body position client_time reply) }
{
    let a = wire::field::write_u8(out, to, b'r');
    let b = wire::field::write_u64(out, a, position);
    let c = wire::field::write_u64(out, b, position);
    let d = wire::field::write_u64(out, c, position);
    let e = wire::field::write_i64(out, d, client_time);
    wire::field::write_u8(out, e, reply as u8)
}

// The body of a status update: 34 bytes.
pub fn encode_standby_status_update(
    position: Lsn,
    client_time: i64,
    reply: bool,
    out: &mut [u8],
) -> Result<usize, Refusal>
    ensures { (outcome result, out.new) ≡ writing 0 (status_body position.0 client_time reply) out.old }
{
    if out.len() < 34 {
        return Err(Refusal::OutputTooShort);
    }
    place_status(out, 0, position.0, client_time, reply);
    Ok(34)
}

// The whole status update: 39 bytes.
pub fn write_status_update(
    position: Lsn,
    client_time: i64,
    reply: bool,
    out: &mut [u8],
) -> Result<usize, Refusal>
    ensures { (outcome result, out.new) ≡ writing 0 (status_update position.0 client_time reply) out.old }
{
    if out.len() < 39 {
        return Err(Refusal::OutputTooShort);
    }
    let a = place_header(out, b'd', 34);
    place_status(out, a, position.0, client_time, reply);
    Ok(39)
}

// Places the texts, each with a zero byte after it, and answers the place after the last.
fn place_strings(out: &mut [u8], at: usize, texts: &[&[u8]]) -> usize
    requires { at + length (strings texts.now) ≤ length out.old }
    ensures { (result, out.new) ≡ placed out.old at (strings texts.now) }
{
    let mut to = at;
    for text in texts {
        let end = wire::store::place(out, to, text);
        to = wire::field::write_u8(out, end, 0);
    }
    to
}

// The texts are names and values in turn.
pub fn write_startup(version: i32, texts: &[&[u8]], out: &mut [u8]) -> Result<usize, Refusal>
    ensures { (outcome result, out.new) ≡ writing (total texts.now) (startup version texts.now) out.old }
{
    let Some(sum) = error::inputs_len(texts, INPUT_LIMIT) else {
        return Err(Refusal::InputTooLong);
    };
    let odd = texts.len() % 2;
    let n = sum + texts.len() + odd + 9;
    if out.len() < n {
        return Err(Refusal::OutputTooShort);
    }
    let a = wire::store::write_be(out, 0, 4, n as u64);
    let b = wire::field::write_i32(out, a, version);
    let c = place_strings(out, b, texts);
    // the empty value of an odd last name, and the end
    wire::store::write_be(out, c, odd + 1, 0);
    Ok(n)
}
