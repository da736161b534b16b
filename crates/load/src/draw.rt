// Draws: Marsaglia's xorshift over 64 bits, and the messages of drawn numbers.
ghost use Rattle.std.specs.Prelude.{◌≡◌, Bool, ◌%◌, ◌<◌, eqb};
ghost use Rattle.load.specs.Xorshift.{next_of};
ghost use Rattle.load.specs.declared.Message.TheVariants.{KeepAlive, Begin, Data, Commit};

use crate::{Made, Message};

// The next state, which is also the number drawn.
pub fn next(x: u64) -> u64
    ensures { result ≡ next_of x }
{
    let a = x ^ (x << 13);
    let b = a ^ (a >> 7);
    b ^ (b << 17)
}

pub(crate) fn keep_alive(end: u64, last: u64) -> Made
    ensures { result ≡ record { message = KeepAlive end (eqb (last % 2) 1); state = last } }
{
    Made {
        message: Message::KeepAlive {
            end,
            reply: last % 2 == 1,
        },
        state: last,
    }
}

pub(crate) fn begin(start: u64, end: u64, final_lsn: u64, last: u64) -> Made
    ensures { result ≡ record { message = Begin start end final_lsn (last % 4294967296); state = last } }
{
    Made {
        message: Message::Begin {
            start,
            end,
            final_lsn,
            xid: (last % 4294967296) as u32,
        },
        state: last,
    }
}

pub(crate) fn other(start: u64, end: u64, last: u64) -> Made
    ensures { result ≡ record { message = Data start end (last % 64); state = last } }
{
    Made {
        message: Message::Data {
            start,
            end,
            letters: (last % 64) as u8,
        },
        state: last,
    }
}

pub(crate) fn commit(start: u64, end: u64, lsn: u64, last: u64) -> Made
    ensures { result ≡ record { message = Commit start end lsn last; state = last } }
{
    Made {
        message: Message::Commit {
            start,
            end,
            lsn,
            end_lsn: last,
        },
        state: last,
    }
}
