// Big-endian integer fields, read from a slice at a place and written into one.
ghost use Rattle.std.specs.Prelude.{◌≡◌, ◌+◌, ◌*◌, ◌<◌, ◌≤◌, ◌^◌, length};
ghost use Rattle.std.specs.Int.Signed.{mag};
ghost use Rattle.wire.specs.Answer.{maybe, value_of};
ghost use Rattle.wire.specs.Bytes.{be, at, placed, be_bytes};
ghost use Rattle.wire.specs.Field.{field_at, signed, unsigned};
ghost use Rattle.wire.specs.Int.{half, int, value, int_at, int_bytes};

use crate::store;

// Half of the values of 8, 16, 32 and 64 bits: from there on a value stands for a negative number.
const HALF_8: u64 = 128;

const HALF_16: u64 = 32768;

const HALF_32: u64 = 2147483648;

const HALF_64: u64 = 9223372036854775808;

// The same for who reads a signed count or length by its value.
pub const FIRST_NEGATIVE_16: u16 = HALF_16 as u16;

pub const FIRST_NEGATIVE_32: u32 = HALF_32 as u32;

// The number that the bytes spell, the first byte the highest.
fn load_be(bytes: &[u8]) -> u64
    requires { length bytes.now ≤ 8 }
    ensures { (result ≡ be bytes.now) × (result < 256 ^ length bytes.now) }
{
    let mut acc: u64 = 0;
    for b in bytes {
        acc = acc * 256 + u64::from(*b);
    }
    acc
}

// The number that n bytes from `from` spell. Every width is read by this function.
fn read_be(s: &[u8], from: usize, n: usize) -> Option<u64>
    requires { n ≤ 8 }
    ensures { (maybe result ≡ field_at n s.now from) × (value_of result < 256 ^ n) }
{
    let bytes = s.get(from..)?.get(..n)?;
    Some(load_be(bytes))
}

// A function for each width, each a line over the one above: an impl of a trait for a width, with its laws, would be no plainer.
pub fn read_u8(s: &[u8], from: usize) -> Option<u8>
    ensures { maybe result ≡ field_at 1 s.now from }
{
    Some(read_be(s, from, 1)? as u8)
}

pub fn read_u16(s: &[u8], from: usize) -> Option<u16>
    ensures { maybe result ≡ field_at 2 s.now from }
{
    Some(read_be(s, from, 2)? as u16)
}

pub fn read_u32(s: &[u8], from: usize) -> Option<u32>
    ensures { maybe result ≡ field_at 4 s.now from }
{
    Some(read_be(s, from, 4)? as u32)
}

pub fn read_u64(s: &[u8], from: usize) -> Option<u64>
    ensures { maybe result ≡ field_at 8 s.now from }
{
    read_be(s, from, 8)
}

// The number that v stands for in two's complement, where half of the values are negative.
fn to_signed(v: u64, half: u64) -> i64
    requires { (half ≤ 2 ^ 63) × (v < half * 2) }
    ensures { (result ≡ signed half v) × (mag result < half) }
{
    if v < half {
        v as i64
    } else {
        -1 - ((half - 1 - (v - half)) as i64)
    }
}

fn of_signed(v: i64, half: u64) -> u64
    requires { (half ≤ 2 ^ 63) × (mag v < half) }
    ensures { result ≡ unsigned half v }
{
    if 0 <= v {
        v as u64
    } else {
        half - 1 - ((-1 - v) as u64) + half
    }
}

// Of 64 bits every value stands for a number.
pub fn to_i64(v: u64) -> i64
    ensures { (result ≡ int 8 v) × (mag result < half 8) }
{
    to_signed(v, HALF_64)
}

pub fn of_i64(v: i64) -> u64
    ensures { result ≡ value 8 v }
{
    of_signed(v, HALF_64)
}

pub fn read_i8(s: &[u8], from: usize) -> Option<i8>
    ensures { maybe result ≡ int_at 1 s.now from }
{
    Some(to_signed(read_be(s, from, 1)?, HALF_8) as i8)
}

pub fn read_i16(s: &[u8], from: usize) -> Option<i16>
    ensures { maybe result ≡ int_at 2 s.now from }
{
    Some(to_signed(read_be(s, from, 2)?, HALF_16) as i16)
}

pub fn read_i32(s: &[u8], from: usize) -> Option<i32>
    ensures { maybe result ≡ int_at 4 s.now from }
{
    Some(to_signed(read_be(s, from, 4)?, HALF_32) as i32)
}

pub fn read_i64(s: &[u8], from: usize) -> Option<i64>
    ensures { maybe result ≡ int_at 8 s.now from }
{
    Some(to_i64(read_be(s, from, 8)?))
}

// A function for each width here too, for the same reason.
pub fn write_u8(dst: &mut [u8], to: usize, v: u8) -> usize
    ensures { (result, dst.new) ≡ placed dst.old to (be_bytes 1 v) }
{
    store::write_be(dst, to, 1, v as u64)
}

pub fn write_u16(dst: &mut [u8], to: usize, v: u16) -> usize
    ensures { (result, dst.new) ≡ placed dst.old to (be_bytes 2 v) }
{
    store::write_be(dst, to, 2, v as u64)
}

pub fn write_u32(dst: &mut [u8], to: usize, v: u32) -> usize
    ensures { (result, dst.new) ≡ placed dst.old to (be_bytes 4 v) }
{
    store::write_be(dst, to, 4, v as u64)
}

pub fn write_u64(dst: &mut [u8], to: usize, v: u64) -> usize
    ensures { (result, dst.new) ≡ placed dst.old to (be_bytes 8 v) }
{
    store::write_be(dst, to, 8, v)
}

pub fn write_i8(dst: &mut [u8], to: usize, v: i8) -> usize
    ensures { (result, dst.new) ≡ placed dst.old to (int_bytes 1 v) }
{
    store::write_be(dst, to, 1, of_signed(v as i64, HALF_8))
}

pub fn write_i16(dst: &mut [u8], to: usize, v: i16) -> usize
    ensures { (result, dst.new) ≡ placed dst.old to (int_bytes 2 v) }
{
    store::write_be(dst, to, 2, of_signed(v as i64, HALF_16))
}

pub fn write_i32(dst: &mut [u8], to: usize, v: i32) -> usize
    ensures { (result, dst.new) ≡ placed dst.old to (int_bytes 4 v) }
{
    store::write_be(dst, to, 4, of_signed(v as i64, HALF_32))
}

pub fn write_i64(dst: &mut [u8], to: usize, v: i64) -> usize
    ensures { (result, dst.new) ≡ placed dst.old to (int_bytes 8 v) }
{
    store::write_be(dst, to, 8, of_signed(v, HALF_64))
}
