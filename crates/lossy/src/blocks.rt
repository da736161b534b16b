// Blocks of characters of one and two bytes, which are passed without a look at each.
ghost use Rattle.std.specs.Prelude.{◌≡◌, ◌+◌, ◌≤◌, ◌<◌, length};
ghost use Rattle.lossy.specs.Blocks.{trails, leads, fits, unfit_at, PassedTo};

// The bytes of a block.
pub(crate) const BLOCK: usize = 32;

// 1 for a continuation byte.
pub(crate) fn trail(b: u8) -> u8
    ensures { result ≡ trails b }
{
    if b < 0x80 {
        0
    } else if b < 0xC0 {
        1
    } else {
        0
    }
}

// What `trail` has to be of the byte after this one: 1 for the first of two bytes; 2, which it never is, for a byte that stands in no character
// of one or two.
fn lead(b: u8) -> u8
    ensures { result ≡ leads b }
{
    if b < 0xC0 {
        0
    } else if b < 0xC2 {
        2
    } else if b < 0xE0 {
        1
    } else {
        2
    }
}

// 0 where the second byte may follow the first.
fn unfit(a: u8, b: u8) -> u8
    ensures { result ≡ fits a b }
{
    if lead(a) == trail(b) { 0 } else { 1 }
}

// How many of a block's bytes may not stand before the one after them. No branch is in the loop, so that it is compiled to moves of sixteen bytes.
fn unfit_in(text: &[u8], from: usize) -> u8
    requires { from + 32 < length text.now }
    ensures { result ≡ unfit_at text.now from 32 }
{
    let mut n: u8 = 0;
    for j in 0..BLOCK {
        n += unfit(text[from + j], text[from + j + 1]);
    }
    n
}

// The place up to which whole blocks of characters of one and two bytes stand. A character that goes over the end of a block is passed with it.
pub(crate) fn passed(text: &[u8], from: usize) -> usize
    requires { from ≤ length text.now }
    ensures { PassedTo text.now from result }
{
    let mut i = from;
    while BLOCK < text.len() - i {
        if trail(text[i]) == 1 {
            return i;
        }
        if unfit_in(text, i) != 0 {
            return i;
        }
        i += BLOCK;
        i += trail(text[i]) as usize;
    }
    i
}
