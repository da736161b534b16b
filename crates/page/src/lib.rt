#![tactic(auto)]
// The service page of a run: six lines of 32 characters and a newline.
ghost use Rattle.std.specs.Prelude.{◌≡◌, ◌≤◌, length};
ghost use Rattle.wire.specs.Bytes.{placed};
ghost use Rattle.text.specs.Ascii.{ascii};
ghost use Rattle.lsn.specs.Position.{display_of};
ghost use Rattle.text.specs.Numeral.{decimal_text};
ghost use Rattle.error.specs.Writer.{writing, outcome};
ghost use Rattle.page.specs.Page.{spaces, line_of, sent_text, state_name, page_of};

use error::Refusal;
use lsn::Lsn;
use wire::store::NOWHERE;

// The bytes of a line and of a page.
const LINE: usize = 33;

pub const PAGE: usize = 198;

// What the page shows: the position that a status would confirm now, whether there was a status and what the last one confirmed, the server's end,
// events handed on, stalls begun, and the state's row in the step table, counted from 0. `confirmed` is no `Option`, since the theorem `PageTraced` says
// which position stands there while no status was sent. The state is a number, since the theorem `NamesOfStates` names every number.
#[derive(Clone, Copy)]
pub struct Page {
    pub position: Lsn,
    pub sent: bool,
    pub confirmed: Lsn,
    pub server: Lsn,
    pub events: u64,
    pub stalls: u64,
    pub state: u64,
}

// Each function that places answers the place after what it placed; where that does not fit, NOWHERE, and nothing is written.
fn place_spaces(out: &mut [u8], to: usize, n: usize) -> usize
    requires { n ≤ 20 }
    ensures { (result, out.new) ≡ placed out.old to (spaces n) }
{
    let blank = [32u8; 20];
    wire::store::place(out, to, &blank[..n])
}

fn place_line(out: &mut [u8], to: usize, label: &[u8], value: &[u8]) -> usize
    requires { (length label.now ≤ 12) × (length value.now ≤ 20) }
    ensures { (result, out.new) ≡ placed out.old to (line_of label.now value.now) }
{
    if out.len() < to {
        return NOWHERE;
    }
    if out.len() - to < LINE {
        return NOWHERE;
    }
    let a = wire::store::place(out, to, label);
    let b = place_spaces(out, a, 12 - label.len());
    let c = place_spaces(out, b, 20 - value.len());
    let d = wire::store::place(out, c, value);
    wire::store::place(out, d, b"\n")
}

fn place_position(out: &mut [u8], to: usize, label: &[u8], p: Lsn) -> usize
    requires { length label.now ≤ 12 }
    ensures { (result, out.new) ≡ placed out.old to (line_of label.now (display_of p.0)) }
{
    let mut value = [0u8; 20];
    let n = p.place(&mut value, 0);
    place_line(out, to, label, &value[..n])
}

fn place_count(out: &mut [u8], to: usize, label: &[u8], n: u64) -> usize
    requires { length label.now ≤ 12 }
    ensures { (result, out.new) ≡ placed out.old to (line_of label.now (decimal_text n)) }
{
    let mut value = [0u8; 20];
    let k = text::place_decimal(&mut value, 0, n);
    place_line(out, to, label, &value[..k])
}

fn place_sent(out: &mut [u8], to: usize, sent: bool, confirmed: Lsn) -> usize
    ensures { (result, out.new) ≡ placed out.old to (line_of (ascii "SENT") (sent_text sent confirmed.0)) }
{
    if sent {
        return place_position(out, to, b"SENT", confirmed);
    }
    place_line(out, to, b"SENT", b"-")
}

fn place_state(out: &mut [u8], to: usize, state: u64) -> usize
    ensures { (result, out.new) ≡ placed out.old to (line_of (ascii "STATE") (state_name state)) }
{
    match state {
        0 => place_line(out, to, b"STATE", b"OPENING"),
        1 => place_line(out, to, b"STATE", b"TURN"),
        2 => place_line(out, to, b"STATE", b"DRAIN"),
        3 => place_line(out, to, b"STATE", b"READING"),
        4 => place_line(out, to, b"STATE", b"WAITING"),
        5 => place_line(out, to, b"STATE", b"HANDLING"),
        6 => place_line(out, to, b"STATE", b"OFFERING"),
        _ => place_line(out, to, b"STATE", b"ENDED"),
    }
}

impl Page {
    // Writes the page.
    pub fn write(self, out: &mut [u8]) -> Result<usize, Refusal>
        ensures { (outcome result, out.new) ≡ writing 0 (page_of self) out.old }
    {
        if out.len() < PAGE {
            return Err(Refusal::OutputTooShort);
        }
        let a = place_position(out, 0, b"POSITION", self.position);
        let b = place_sent(out, a, self.sent, self.confirmed);
        let c = place_position(out, b, b"SERVER", self.server);
        let d = place_count(out, c, b"EVENTS", self.events);
        let e = place_count(out, d, b"STALLS", self.stalls);
        place_state(out, e, self.state);
        Ok(PAGE)
    }
}
