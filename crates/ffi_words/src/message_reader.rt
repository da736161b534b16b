// A reader of messages as eight words. Any words are the words of some reader. SCOPE 9.4, 3.3.
// Kinds, refusals and flags are numbers here: the C interface.
ghost use Rattle.std.specs.Prelude.{◌≡◌};
ghost use Rattle.ffi_words.specs.Words.{reader_of, reader_words, header_words, HeaderFits};

use crate::layout;
use crate::word::{byte_of, flag_of, wide};
use framing::MessageReader;
use wire::word::flag;

pub fn reader_of(w: [u64; layout::READER_WORDS]) -> MessageReader
    ensures { result ≡ reader_of w }
{
    let header = [
        byte_of(w[layout::READER_HEADER_0]),
        byte_of(w[layout::READER_HEADER_1]),
        byte_of(w[layout::READER_HEADER_2]),
        byte_of(w[layout::READER_HEADER_3]),
        byte_of(w[layout::READER_HEADER_4]),
    ];
    MessageReader {
        header,
        filled: w[layout::READER_FILLED] as usize,
        payload_len: w[layout::READER_PAYLOAD_LEN] as usize,
        refused: flag_of(w[layout::READER_REFUSED]),
    }
}

pub(crate) fn header_words(h: [u8; 5]) -> [u64; 5]
    ensures { (result ≡ header_words h) × HeaderFits h }
{
    [wide(h[0]), wide(h[1]), wide(h[2]), wide(h[3]), wide(h[4])]
}

// The words stand for the reader that they were made of.
pub fn reader_words(reader: MessageReader) -> [u64; layout::READER_WORDS]
    ensures { (result ≡ reader_words reader) × (reader_of result ≡ reader) }
{
    let bytes = reader.header;
    let header = header_words(bytes);
    [
        header[0],
        header[1],
        header[2],
        header[3],
        header[4],
        reader.filled as u64,
        reader.payload_len as u64,
        flag(reader.refused),
    ]
}
