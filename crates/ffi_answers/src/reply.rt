// A refusal's number, 0 for none, and a count or a position.
// Kinds, refusals and flags are numbers here: the C interface.
ghost use Rattle.std.specs.Prelude.{◌≡◌};
ghost use Rattle.error.specs.Writer.{outcome};
ghost use Rattle.lossy.specs.Marks.{lossy_outcome};
ghost use Rattle.lsn.specs.Position.{parse_outcome};

use error::Refusal;
use lossy::Lossy;
use lsn::Lsn;

#[derive(Clone, Copy)]
pub struct Reply {
    pub refusal: u64,
    pub value: u64,
}

// A refusal's number, 0 for none, how many bytes of a text were written, and its marks.
#[derive(Clone, Copy)]
pub struct Shown {
    pub refusal: u64,
    pub written: u64,
    pub marks: u64,
}

// How many bytes were written, or how many columns a row has.
pub fn written_reply(w: Result<usize, Refusal>) -> Reply
    ensures { (result.refusal, result.value) ≡ outcome w }
{
    match w {
        Ok(n) => Reply {
            refusal: 0,
            value: n as u64,
        },
        Err(r) => Reply {
            refusal: r.number() as u64,
            value: 0,
        },
    }
}

pub fn lossy_reply(w: Result<Lossy, Refusal>) -> Shown
    ensures { (result.refusal, result.written, result.marks) ≡ lossy_outcome w }
{
    match w {
        Ok(length) => Shown {
            refusal: 0,
            written: length.bytes as u64,
            marks: length.marks as u64,
        },
        Err(r) => Shown {
            refusal: r.number() as u64,
            written: 0,
            marks: 0,
        },
    }
}

pub fn parsed_reply(p: Result<Lsn, Refusal>) -> Reply
    ensures { (result.refusal, result.value) ≡ parse_outcome p }
{
    match p {
        Ok(position) => Reply {
            refusal: 0,
            value: position.0,
        },
        Err(r) => Reply {
            refusal: r.number() as u64,
            value: 0,
        },
    }
}
