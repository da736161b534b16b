#![tactic(auto)]
// Numbers and bytes as texts.
ghost use Rattle.std.specs.Prelude.{◌≡◌, ◌∷◌, ◌+◌, ◌*◌, ◌≤◌, ◌<◌, ◌^◌, length};
ghost use Rattle.wire.specs.Bytes.{put, placed};
ghost use Rattle.text.specs.Numeral.{digit_behind, numeral, hex_text, decimal_text, signed_text, hex_bytes};

use wire::store::NOWHERE;

// Where the letters of digits begin: ten places before A and a.
const UPPER: u8 = b'A' - 10;

const LOWER: u8 = b'a' - 10;

// The digit of a value, whose letters begin behind that place.
fn digit(d: u8, letters: u8) -> u8
    requires { (d < 16) × (letters ≤ 87) }
    ensures { result ≡ digit_behind letters d }
{
    if d < 10 { b'0' + d } else { letters + d }
}

// How many digits v has.
fn places(v: u64, base: u64) -> usize
    requires { (2 ≤ base) × (v < base ^ 20) }
    ensures { result ≡ length (numeral base 20 v) }
{
    let mut x = v;
    let mut n: usize = 1;
    while base <= x {
        x /= base;
        n += 1;
    }
    n
}

// The n digits of v over out from `to` on.
fn spell(out: &mut [u8], to: usize, n: usize, v: u64, base: u64)
    requires { (2 ≤ base) × ((base ≤ 16) × ((v < base ^ 20) × ((n ≡ length (numeral base 20 v)) × (to + n ≤ length out.old)))) }
    ensures { out.new ≡ put out.old to (numeral base 20 v) }
{
    let mut x = v;
    for i in (1..n).rev() {
        out[to + i] = digit((x % base) as u8, UPPER);
        x /= base;
    }
    out[to] = digit(x as u8, UPPER);
}

fn place_number(out: &mut [u8], to: usize, v: u64, base: u64) -> usize
    requires { (2 ≤ base) × ((base ≤ 16) × (v < base ^ 20)) }
    ensures { (result, out.new) ≡ placed out.old to (numeral base 20 v) }
{
    let n = places(v, base);
    if out.len() < to {
        return NOWHERE;
    }
    if out.len() - to < n {
        return NOWHERE;
    }
    spell(out, to, n, v, base);
    to + n
}

pub fn hex_len(v: u64) -> usize
    ensures { result ≡ length (hex_text v) }
{
    places(v, 16)
}

// Each writes at `to` and answers the place after; where the text does not fit, NOWHERE, and nothing is written.
pub fn place_hex(out: &mut [u8], to: usize, v: u64) -> usize
    ensures { (result, out.new) ≡ placed out.old to (hex_text v) }
{
    place_number(out, to, v, 16)
}

pub fn place_decimal(out: &mut [u8], to: usize, v: u64) -> usize
    ensures { (result, out.new) ≡ placed out.old to (decimal_text v) }
{
    place_number(out, to, v, 10)
}

fn place_negative(out: &mut [u8], to: usize, m: u64) -> usize
    ensures { (result, out.new) ≡ placed out.old to (45 ∷ decimal_text m) }
{
    let n = places(m, 10);
    if out.len() < to {
        return NOWHERE;
    }
    if out.len() - to < n + 1 {
        return NOWHERE;
    }
    out[to] = b'-';
    spell(out, to + 1, n, m, 10);
    to + (n + 1)
}

pub fn place_signed(out: &mut [u8], to: usize, v: i64) -> usize
    ensures { (result, out.new) ≡ placed out.old to (signed_text v) }
{
    if 0 <= v {
        place_decimal(out, to, v as u64)
    } else {
        place_negative(out, to, ((-1 - v) as u64) + 1)
    }
}

fn spell_bytes(out: &mut [u8], to: usize, s: &[u8])
    requires { to + length s.now * 2 ≤ length out.old }
    ensures { out.new ≡ put out.old to (hex_bytes s.now) }
{
    let mut at = to;
    for b in s {
        out[at] = digit(*b / 16, LOWER);
        out[at + 1] = digit(*b % 16, LOWER);
        at += 2;
    }
}

pub fn place_hex_bytes(out: &mut [u8], to: usize, s: &[u8]) -> usize
    ensures { (result, out.new) ≡ placed out.old to (hex_bytes s.now) }
{
    if out.len() < to {
        return NOWHERE;
    }
    if (out.len() - to) / 2 < s.len() {
        return NOWHERE;
    }
    spell_bytes(out, to, s);
    to + s.len() * 2
}
