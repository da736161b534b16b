// How many of the unread bytes are one whole message, without a read: nothing is copied.
ghost use Rattle.std.specs.Prelude.{◌≡◌, ◌≤◌, length};
ghost use Rattle.wire.specs.Answer.{maybe, value_of};
ghost use Rattle.framing.specs.WholeFront.{front_bytes, there};

use crate::{limit_of, payload_len};

// The bytes of the message at the front, header and payload, where it is whole and within the limit.
pub fn front(max_message_size: usize, unread: &[u8]) -> Option<usize>
    ensures { (maybe result ≡ there (front_bytes max_message_size unread.now)) × (value_of result ≤ length unread.now) }
{
    if unread.len() < 5 {
        return None;
    }
    let len = payload_len(wire::field::read_u32(unread, 1)?)?;
    if limit_of(max_message_size) < len {
        return None;
    }
    if unread.len() - 5 < len {
        return None;
    }
    Some(5 + len)
}
