// The files that a transaction touched, for a host: one bit for each of four in a lent word. SCOPE 9.7.
ghost use Rattle.std.specs.Prelude.{◌≡◌};
ghost use Rattle.touched.specs.Words.{touched_call};

use touched::words::after_event;

// ---- touched files: which of the four files a transaction touched

// The files that a transaction touched, after one more event: its kind, and of an XLogData its data. What is lent with any other kind is not read.
// Answers the refusal: 31 where one of the first 64 entries has a file above 3, whatever the event is, and then touched is as it was.
//
// The call is made for every event in order. A Begin clears all bits; an XLogData that is an Insert, Update, Delete or Truncate sets the bit of the
// file of every relation that it names; all else leaves them, so that at a Commit they are its transaction's. Bit n of touched stands for file n; it
// is 0 at first and is handed in as the last call left it. Bits above the four are not read, and are 0 afterwards.
//
// The list: identifiers of relations and their files, 0 to 3, in two arrays of which the shorter length holds. A relation outside it touches no file,
// of a repeated one the first entry holds, entries past the sixty-fourth are not read. A row that is cut short, or that has a letter which the
// protocol does not list, touches nothing.
#[unsafe(no_mangle)]
pub extern "C" fn rufflesquash_touched(
    identifiers: &[u32],
    files: &[u64],
    kind: u64,
    data: &[u8],
    touched: &mut u64,
) -> u64
    ensures { (result, touched.new)
        ≡ touched_call identifiers.now files.now kind «data».now touched.old }
{
    let reply = after_event(identifiers, files, kind, data, *touched);
    *touched = reply.bits;
    reply.refusal
}
