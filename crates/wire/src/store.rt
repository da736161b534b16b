// Bytes written into a lent slice.
ghost use Rattle.std.specs.Prelude.{◌≡◌, ◌+◌, ◌≤◌, min, length};
ghost use Rattle.wire.specs.Bytes.{placed, copied, put, be_bytes};

// What a function that places bytes answers where they do not fit. No slice is so long that this is a place in it. An `Option` would be no plainer:
// a writer measures its text first and then places one piece after the other, and would have to match a `None` that cannot be.
pub const NOWHERE: usize = 18446744073709551615;

// A loop, since the library's `copy_from_slice` is C's memmove, which whoever links the archive for C would have to bring.
fn copy_all(dst: &mut [u8], src: &[u8])
    requires { length src.now ≤ length dst.old }
    ensures { dst.new ≡ put dst.old 0 src.now }
{
    for i in 0..src.len() {
        dst[i] = src[i];
    }
}

// As much of src as fits over the front of dst, and how much that is.
pub fn copy(dst: &mut [u8], src: &[u8]) -> usize
    ensures { (result, dst.new) ≡ copied dst.old src.now }
{
    let n = src.len().min(dst.len());
    copy_all(dst, &src[..n]);
    n
}

// The place after src, which is written at `to`; where it does not fit, NOWHERE, and nothing is written.
pub fn place(dst: &mut [u8], to: usize, src: &[u8]) -> usize
    ensures { (result, dst.new) ≡ placed dst.old to src.now }
{
    if dst.len() < to {
        return NOWHERE;
    }
    if dst.len() - to < src.len() {
        return NOWHERE;
    }
    copy_all(&mut dst[to..], src);
    to + src.len()
}

fn store_be(dst: &mut [u8], to: usize, n: usize, v: u64)
    requires { to + n ≤ length dst.old }
    ensures { dst.new ≡ put dst.old to (be_bytes n v) }
{
    let mut x = v;
    for i in (0..n).rev() {
        dst[to + i] = (x % 256) as u8;
        x /= 256;
    }
}

// The n lowest bytes of v, the highest first, placed at `to`. Every width is written by this function.
pub fn write_be(dst: &mut [u8], to: usize, n: usize, v: u64) -> usize
    ensures { (result, dst.new) ≡ placed dst.old to (be_bytes n v) }
{
    if dst.len() < to {
        return NOWHERE;
    }
    if dst.len() - to < n {
        return NOWHERE;
    }
    store_be(dst, to, n, v);
    to + n
}
