#![tactic(auto)]
// A reader over lent data, in place of the Rust's `&mut &[u8]`: the data and a place in them. It is made at a place, moved by `skip`, and reads what
// stands there; what it reads is read by functions on the data and a place.
ghost use Rattle.std.specs.Prelude.{◌≡◌, ◌-◌, drop, length};
ghost use Rattle.wire.specs.Answer.{maybe};
ghost use Rattle.wire.specs.Field.{field_at};
ghost use Rattle.wire.specs.Find.{index_of};
ghost use Rattle.wire.specs.Int.{int_at};
ghost use Rattle.reader.specs.Skip.{skipped};

#[derive(Clone, Copy)]
pub struct Reader<'a> {
    pub bytes: &'a [u8],
    pub place: usize,
}

// ---- on the data and a place

// The place n bytes further, or the end of the data where they are fewer. A place after the end stays.
fn skip_from(bytes: &[u8], at: usize, n: usize) -> usize
    ensures { result ≡ skipped bytes.now at n }
{
    if bytes.len() < at {
        return at;
    }
    if bytes.len() - at < n {
        return bytes.len();
    }
    at + n
}

fn zero_from(bytes: &[u8], at: usize) -> Option<usize>
    ensures { maybe result ≡ index_of 0 (drop at bytes.now) }
{
    let Some(rest) = bytes.get(at..) else {
        return None;
    };
    wire::find::find_zero(rest)
}

// ---- over the reader

impl<'a> Reader<'a> {
    pub fn new(bytes: &'a [u8], at: usize) -> Reader<'a>
        ensures { (result.bytes ≡ bytes.entry) × (result.place ≡ at) }
    {
        Reader { bytes, place: at }
    }

    // The reader n bytes further.
    pub fn skip(self, n: usize) -> Reader<'a>
        ensures { (result.bytes ≡ self.entry.bytes) × (result.place ≡ skipped self.entry.bytes.now self.entry.place n) }
    {
        let at = skip_from(self.bytes, self.place, n);
        Reader {
            bytes: self.bytes,
            place: at,
        }
    }

    pub fn place(self) -> usize
        ensures { result ≡ self.entry.place }
    {
        self.place
    }

    pub fn take_u8(self) -> Option<u8>
        ensures { maybe result ≡ field_at 1 self.entry.bytes.now self.entry.place }
    {
        wire::field::read_u8(self.bytes, self.place)
    }

    pub fn take_u32(self) -> Option<u32>
        ensures { maybe result ≡ field_at 4 self.entry.bytes.now self.entry.place }
    {
        wire::field::read_u32(self.bytes, self.place)
    }

    pub fn take_u64(self) -> Option<u64>
        ensures { maybe result ≡ field_at 8 self.entry.bytes.now self.entry.place }
    {
        wire::field::read_u64(self.bytes, self.place)
    }

    pub fn take_i64(self) -> Option<i64>
        ensures { maybe result ≡ int_at 8 self.entry.bytes.now self.entry.place }
    {
        wire::field::read_i64(self.bytes, self.place)
    }

    // The first zero byte, counted from the place.
    pub fn take_zero(self) -> Option<usize>
        ensures { maybe result ≡ index_of 0 (drop self.entry.place self.entry.bytes.now) }
    {
        zero_from(self.bytes, self.place)
    }

    // How many bytes stand from the place on.
    pub fn left(self) -> usize
        ensures { result ≡ length self.entry.bytes.now - self.entry.place }
    {
        self.bytes.len().saturating_sub(self.place)
    }
}

// ---- a reader at a place, moved by n bytes. Who walks data has the data and a place alone, and calls on a reader made anew at each field would be no plainer

pub fn u8_after(bytes: &[u8], at: usize, n: usize) -> Option<u8>
    ensures { maybe result ≡ field_at 1 bytes.now (skipped bytes.now at n) }
{
    Reader::new(bytes, at).skip(n).take_u8()
}

pub fn u32_after(bytes: &[u8], at: usize, n: usize) -> Option<u32>
    ensures { maybe result ≡ field_at 4 bytes.now (skipped bytes.now at n) }
{
    Reader::new(bytes, at).skip(n).take_u32()
}

pub fn u64_after(bytes: &[u8], at: usize, n: usize) -> Option<u64>
    ensures { maybe result ≡ field_at 8 bytes.now (skipped bytes.now at n) }
{
    Reader::new(bytes, at).skip(n).take_u64()
}

pub fn i64_after(bytes: &[u8], at: usize, n: usize) -> Option<i64>
    ensures { maybe result ≡ int_at 8 bytes.now (skipped bytes.now at n) }
{
    Reader::new(bytes, at).skip(n).take_i64()
}

pub fn zero_after(bytes: &[u8], at: usize, n: usize) -> Option<usize>
    ensures { maybe result ≡ index_of 0 (drop (skipped bytes.now at n) bytes.now) }
{
    Reader::new(bytes, at).skip(n).take_zero()
}

pub fn place_after(bytes: &[u8], at: usize, n: usize) -> usize
    ensures { result ≡ skipped bytes.now at n }
{
    Reader::new(bytes, at).skip(n).place()
}

pub fn left_after(bytes: &[u8], at: usize, n: usize) -> usize
    ensures { result ≡ length bytes.now - skipped bytes.now at n }
{
    Reader::new(bytes, at).skip(n).left()
}
