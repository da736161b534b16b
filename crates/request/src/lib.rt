#![tactic(auto)]
// The query of start_replication, written straight into the output: its length is known before.
ghost use Rattle.std.specs.Prelude.{◌≡◌, ◌+◌, ◌≤◌, ◌<◌, ◌^◌, length};
ghost use Rattle.wire.specs.Bytes.{placed};
ghost use Rattle.error.specs.Inputs.{total};
ghost use Rattle.error.specs.Writer.{writing, outcome};
ghost use Rattle.frontend.specs.Frontend.{query};
ghost use Rattle.request.specs.Request.{start_replication, end_text};

use error::{INPUT_LIMIT, Refusal};
use lsn::Lsn;

// How many bytes stand after the names, the zero byte with them.
fn end_len(binary: bool) -> usize
    ensures { result ≡ length (end_text binary) }
{
    if binary { 35 } else { 20 }
}

// The sum of a query's pieces; 77 bytes stand around those that vary.
fn request_len(slot: usize, position: usize, names: usize, end: usize) -> usize
    requires { slot + 77 + position + names + end < 2 ^ 64 }
    ensures { result ≡ slot + 77 + position + names + end }
{
    slot + 77 + position + names + end
}

fn place_end(out: &mut [u8], to: usize, binary: bool) -> usize
    ensures { (result, out.new) ≡ placed out.old to (end_text binary) }
{
    if binary {
        return wire::store::place(out, to, b"', messages 'true', binary 'true')\0");
    }
    wire::store::place(out, to, b"', messages 'true')\0")
}

// The query of length n at the front; each piece is placed after the one before. The length field counts all but the letter.
fn place_query(
    n: usize,
    binary: bool,
    slot: &[u8],
    publications: &[&[u8]],
    position: Lsn,
    out: &mut [u8],
) -> usize
    requires { (n ≡ length (query (start_replication binary slot.now publications.now position))) × (n ≤ length out.old) }
    ensures { (result, out.new)
        ≡ placed out.old 0 (query (start_replication binary slot.now publications.now position)) }
{
    let a = wire::field::write_u8(out, 0, b'Q');
    let b = wire::store::write_be(out, a, 4, (n - 1) as u64);
    let c = wire::store::place(out, b, b"START_REPLICATION SLOT ");
    let d = wire::store::place(out, c, slot);
    let e = wire::store::place(out, d, b" LOGICAL ");
    let f = position.place(out, e);
    let g = wire::store::place(out, f, b" (proto_version '1', publication_names '");
    let h = config::place(out, g, publications);
    place_end(out, h, binary)
}

// The query that opens a stream from a position.
pub fn start_replication(
    binary: bool,
    slot: &[u8],
    publications: &[&[u8]],
    position: Lsn,
    out: &mut [u8],
) -> Result<usize, Refusal>
    ensures { (outcome result, out.new)
        ≡ writing (length slot.now + total publications.now)
        (query (start_replication binary slot.now publications.now position)) out.old }
{
    if INPUT_LIMIT < slot.len() {
        return Err(Refusal::InputTooLong);
    }
    let Some(_) = error::inputs_len(publications, INPUT_LIMIT - slot.len()) else {
        return Err(Refusal::InputTooLong);
    };
    let Some(names) = config::count(publications, out.len()) else {
        return Err(Refusal::OutputTooShort);
    };
    let n = request_len(slot.len(), position.text_len(), names, end_len(binary));
    if out.len() < n {
        return Err(Refusal::OutputTooShort);
    }
    place_query(n, binary, slot, publications, position, out);
    Ok(n)
}
