// The slot and the publications of a script. The publications stand after the slot as the script has them, length and bytes.
use crate::fault::{Malformed, read};
use crate::script::Script;
use std::io::Stdin;
use test_lines::fields;
use test_lines::names::name_at;
use worker::Opened;

// As many bytes as all names may have.
const MOST: usize = 4096;

// A name of that many bytes into the buffer from a place on. The answer is the place after it.
fn stored(input: Stdin, names: &mut [u8], at: usize, len: usize) -> Result<usize, Malformed> {
    if names.len() < at || names.len() - at < len {
        return Err(Malformed);
    }
    read(input, &mut names[at..at + len])?;
    Ok(at + len)
}

// A slot of the given length, the number of publications, which is answered, and each of them.
pub(crate) fn read_all(input: Stdin, slot: usize, names: &mut [u8]) -> Result<u8, Malformed> {
    if MOST < slot {
        return Err(Malformed);
    }
    let mut at = stored(input, names, 0, slot)?;
    let mut count = [0u8; 1];
    read(input, &mut count)?;
    let mut left = MOST - slot;
    for _ in 0..count[0] {
        let mut head = [0u8; 2];
        read(input, &mut head)?;
        let len = fields::half(&head, 0);
        if left < len {
            return Err(Malformed);
        }
        left -= len;
        let from = wire::store::place(names, at, &head);
        at = stored(input, names, from, len)?;
    }
    Ok(count[0])
}

pub(crate) fn open(s: Script, names: &[u8], out: &mut [u8]) -> Opened {
    let slot = &names[..s.slot.min(names.len())];
    let mut list = [&names[..0]; 255];
    let mut at = slot.len();
    for publication in list.iter_mut().take(s.publications as usize) {
        let name = name_at(names, at);
        *publication = &names[name.from..name.to];
        at = name.to;
    }
    let publications = &list[..s.publications as usize];
    worker::session::open(s.settings, slot, publications, s.position, s.start, out)
}
