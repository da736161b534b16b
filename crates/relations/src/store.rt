// What storing a Relation is made of: an element, and the test of its names.
ghost use Rattle.std.specs.Prelude.{◌≡◌, set};
ghost use Rattle.relations.specs.Cache.{names_fit};
ghost use Rattle.relations.specs.Memory.{described_from};

use crate::NAME;
use rows::items::description_at;

// An element is stored; outside, nothing is.
pub fn set<T: Copy>(s: &mut [T], i: usize, v: T)
    ensures { s.new ≡ set s.old i v }
{
    if i < s.len() {
        s[i] = v;
    }
}

// Whether each name of the n descriptions from a place on has 63 bytes at most.
pub fn names_fit(bytes: &[u8], from: usize, n: usize) -> bool
    ensures { result ≡ names_fit (described_from bytes.now n from) }
{
    let mut at = from;
    for _ in 0..n {
        let Ok((description, next)) = description_at(bytes, at) else {
            return true;
        };
        if NAME < description.name.len {
            return false;
        }
        at = next;
    }
    true
}
