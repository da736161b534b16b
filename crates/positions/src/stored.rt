// A line of a file of stored positions, byte by byte, and what is printed of it.
ghost use Rattle.std.specs.Prelude.{◌≡◌};
ghost use Rattle.test_lines.specs.Line.{pieces};
ghost use Rattle.positions.specs.Stored.{shown_of, refused_texts, end_texts_of, passed_texts, last_texts, turn_texts, turn_held, turn_line};

use lsn::Lsn;

// What is held after a byte, and the place after all that is to be printed. How many bytes of the line so far are held, or none, where it has more than
// can be, of which all were printed as they came.
#[derive(Clone, Copy)]
pub(crate) struct Told {
    pub held: Option<usize>,
    pub at: usize,
}

// A refusal's number, a space and the line as it is stored.
fn refused(out: &mut [u8], at: usize, number: u64, s: &[u8]) -> usize
    ensures { (result, out.new) ≡ pieces out.old at (refused_texts number s.now) }
{
    let a = text::place_decimal(out, at, number);
    let b = wire::store::place(out, a, b" ");
    wire::store::place(out, b, s)
}

// A line without its line feed: Display's spelling, or the refusal's number, a space and the line.
fn shown(out: &mut [u8], at: usize, s: &[u8]) -> usize
    ensures { (result, out.new) ≡ pieces out.old at (shown_of s.now) }
{
    match Lsn::parse(s) {
        Ok(p) => p.place(out, at),
        Err(r) => refused(out, at, r.number() as u64, s),
    }
}

// The end of a line. Of a longer one than is held all but the line feed is printed already.
fn ended(out: &mut [u8], at: usize, held: Option<usize>, line: &[u8]) -> usize
    ensures { (result, out.new) ≡ pieces out.old at (end_texts_of held line.now) }
{
    let Some(n) = held else {
        return test_lines::end(out, at);
    };
    let a = shown(out, at, &line[..n.min(line.len())]);
    test_lines::end(out, a)
}

// The first byte that cannot be held: what is held is judged, and both are shown.
fn passed(out: &mut [u8], at: usize, line: &[u8], b: u8) -> usize
    ensures { (result, out.new) ≡ pieces out.old at (passed_texts line.now b) }
{
    let a = shown(out, at, line);
    wire::store::place(out, a, &[b])
}

// One byte more.
pub(crate) fn turn(held: Option<usize>, b: u8, line: &mut [u8], out: &mut [u8], at: usize) -> Told
    ensures { (result.held ≡ turn_held held line.old b)
        × (line.new ≡ turn_line held line.old b)
        × ((result.at, out.new) ≡ pieces out.old at (turn_texts held line.old b)) }
{
    if b == b'\n' {
        let at = ended(out, at, held, line);
        return Told { held: Some(0), at };
    }
    let Some(n) = held else {
        let at = wire::store::place(out, at, &[b]);
        return Told { held, at };
    };
    if n < line.len() {
        line[n] = b;
        return Told {
            held: Some(n + 1),
            at,
        };
    }
    let at = passed(out, at, line, b);
    Told { held: None, at }
}

// The end of the file: a last line without a line feed is a line, and nothing after the last line feed is none.
pub(crate) fn last(held: Option<usize>, line: &[u8], out: &mut [u8], at: usize) -> usize
    ensures { (result, out.new) ≡ pieces out.old at (last_texts held line.now) }
{
    let Some(n) = held else {
        return test_lines::end(out, at);
    };
    if n == 0 {
        return at;
    }
    ended(out, at, held, line)
}
