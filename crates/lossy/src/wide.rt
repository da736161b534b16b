// Blocks of characters of any width, which are passed without a look at each: every byte is judged by the three before it.
ghost use Rattle.std.specs.Prelude.{◌≡◌, ◌+◌, ◌≤◌, ◌<◌, length, get_or};
ghost use Rattle.lossy.specs.Blocks.{PassedTo};
ghost use Rattle.lossy.specs.Wide.{due_after, apart, under, over, nowhere, unfits, windows_at, begun};

use crate::blocks::{BLOCK, trail};

// Whether a continuation byte is due after three bytes.
fn due(x: u8, y: u8, z: u8) -> u8
    ensures { (result ≡ due_after x y z) × (result ≤ 1) }
{
    if x < 0xF0 {
        if y < 0xE0 {
            if z < 0xC0 { 0 } else { 1 }
        } else {
            1
        }
    } else {
        1
    }
}

// 1 where one is due and does not stand there, or stands there and is not due.
fn is_apart(x: u8, y: u8, z: u8, b: u8) -> u8
    ensures { (result ≡ apart x y z b) × (result ≤ 1) }
{
    if due(x, y, z) == trail(b) { 0 } else { 1 }
}

// 1 for a second byte that is below the range behind its first one.
fn is_under(first: u8, least: u8, a: u8, b: u8) -> u8
    ensures { (result ≡ under first least a b) × (result ≤ 1) }
{
    if a == first {
        if b < least { 1 } else { 0 }
    } else {
        0
    }
}

// 1 for one that is above it.
fn is_over(first: u8, most: u8, a: u8, b: u8) -> u8
    ensures { (result ≡ over first most a b) × (result ≤ 1) }
{
    if a == first {
        if b < most { 0 } else { 1 }
    } else {
        0
    }
}

// 1 for a byte that stands in no character.
fn is_nowhere(a: u8) -> u8
    ensures { (result ≡ nowhere a) × (result ≤ 1) }
{
    if a < 0xC0 {
        0
    } else if a < 0xC2 {
        1
    } else if a < 0xF5 {
        0
    } else {
        1
    }
}

// 0 where b may stand behind x, y and z.
fn unfit(x: u8, y: u8, z: u8, b: u8) -> u8
    ensures { (result ≡ unfits x y z b) × (result ≤ 6) }
{
    is_apart(x, y, z, b)
        + is_under(0xE0, 0xA0, z, b)
        + is_over(0xED, 0xA0, z, b)
        + is_under(0xF0, 0x90, z, b)
        + is_over(0xF4, 0x90, z, b)
        + is_nowhere(z)
}

// The sum over the windows that begin in a block. No branch is in the loop, so that it is compiled to moves of sixteen bytes.
fn unfit_in(text: &[u8], from: usize) -> u8
    requires { from + 35 ≤ length text.now }
    ensures { result ≡ windows_at text.now from 32 }
{
    let mut n: u8 = 0;
    for j in 0..BLOCK {
        n += unfit(
            text[from + j],
            text[from + j + 1],
            text[from + j + 2],
            text[from + j + 3],
        );
    }
    n
}

// Whether the first three bytes are no beginning of characters; before them none goes on.
fn unfit_first(text: &[u8], i: usize) -> u8
    requires { i + 3 ≤ length text.now }
    ensures { result ≡ unfits 0 0 0 (get_or text.now i 0)
        + unfits 0 0 (get_or text.now i 0) (get_or text.now (i + 1) 0)
        + unfits 0 (get_or text.now i 0) (get_or text.now (i + 1) 0) (get_or text.now (i + 2) 0) }
{
    unfit(0, 0, 0, text[i])
        + unfit(0, 0, text[i], text[i + 1])
        + unfit(0, text[i], text[i + 1], text[i + 2])
}

// How many of three bytes belong to a character that goes on behind them.
fn begun_in(x: u8, y: u8, z: u8) -> usize
    ensures { (result ≡ begun x y z) × (result ≤ 3) }
{
    if due(x, y, z) == 0 {
        return 0;
    }
    if trail(z) == 0 {
        return 1;
    }
    if trail(y) == 0 {
        return 2;
    }
    3
}

// The place before the character that goes on behind the three bytes from i on.
fn boundary(text: &[u8], i: usize) -> usize
    requires { i + 3 ≤ length text.now }
    ensures { result + begun (get_or text.now i 0) (get_or text.now (i + 1) 0) (get_or text.now (i + 2) 0) ≡ i + 3 }
{
    i + 3 - begun_in(text[i], text[i + 1], text[i + 2])
}

// The place up to which blocks of characters stand; `from` where the first does not, and where the text has fewer bytes than a block and its windows
// take. The last block ends with the text, and was judged in part before.
pub(crate) fn passed(text: &[u8], from: usize) -> usize
    requires { from ≤ length text.now }
    ensures { PassedTo text.now from result }
{
    if text.len() - from < 36 {
        return from;
    }
    if unfit_first(text, from) != 0 {
        return from;
    }
    let mut i = from;
    while 36 <= text.len() - i {
        if unfit_in(text, i) != 0 {
            return boundary(text, i);
        }
        i += BLOCK;
    }
    let last = text.len() - 35;
    if unfit_in(text, last) != 0 {
        return boundary(text, i);
    }
    boundary(text, text.len() - 3)
}
