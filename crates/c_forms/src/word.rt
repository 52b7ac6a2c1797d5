// Words of records in bytes: read from a place on, and put at a place.
ghost use Rattle.std.specs.Prelude.{◌≡◌, ◌+◌, ◌*◌, ◌≤◌, length};
ghost use Rattle.c_forms.specs.Words.{word_length, word, word_at};

use super::form::Form;

// How many bytes a word has, and a long one.
pub(crate) const WORD_BYTES: usize = 4;

pub(crate) const LONG_BYTES: usize = 8;

// The i-th word of those from a place on.
pub(crate) fn word_at(b: &[u8], at: usize, i: usize) -> u32
    requires { at + word_length * i ≤ length b.now }
    ensures { result ≡ word_at b.now at i }
{
    little_endian::u32_at(b, at + WORD_BYTES * i)
}

// A number in a word: its lowest 4 bytes.
impl Form for u64 {
    ghost BYTES = { word_length };

    const BYTES: usize = WORD_BYTES;

    ghost bytes = { word };

    fn put(self, buf: &mut [u8], at: usize) -> usize {
        little_endian::put_u32(buf, at, self)
    }
}

impl Form for usize {
    ghost BYTES = { word_length };

    const BYTES: usize = WORD_BYTES;

    ghost bytes = { word };

    fn put(self, buf: &mut [u8], at: usize) -> usize {
        (self as u64).put(buf, at)
    }
}
