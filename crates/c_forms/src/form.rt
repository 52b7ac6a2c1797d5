// What has a fixed number of bytes: how it is put at a place, and how it is read back from one. Rows of it, one behind another, and a whole
// record at the front of a lent buffer.
ghost use Rattle.std.specs.Prelude.{◌≡◌, ℕ, ◌+◌, ◌*◌, ◌≤◌, List, length};
ghost use Rattle.little_endian.specs.Rows.{each, rows};
ghost use Rattle.c_forms.specs.Words.{PutOf, PutFront};

use std::array;

// What can be put into a record.
pub(crate) trait Form: Copy {
    ghost BYTES: { ℕ };

    // How many bytes it has.
    const BYTES: usize;

    ghost bytes: { Self → List ℕ };

    // The answer is the place behind it.
    fn put(self, buf: &mut [u8], at: usize) -> usize
        requires { at + BYTES ≤ length buf.old }
        ensures { PutOf BYTES (bytes self) at buf.old buf.new result };
}

// What can be read back from one, too.
pub(crate) trait ReadBack: Form {
    ghost value_at: { List ℕ → ℕ → Self };

    fn read(b: &[u8], at: usize) -> Self
        requires { at + Self.BYTES ≤ length b.now }
        ensures { result ≡ value_at b.now at };
}

pub(crate) fn put_each<T: Form>(buf: &mut [u8], at: usize, list: &[T]) -> usize
    requires { at + T.BYTES * length list.now ≤ length buf.old }
    ensures { PutOf (T.BYTES * length list.now) (each T.bytes list.now) at buf.old buf.new result }
{
    let mut end = at;
    for x in list {
        end = x.put(buf, end);
    }
    end
}

pub(crate) fn read_each<T: ReadBack, const N: usize>(b: &[u8], at: usize) -> [T; N]
    requires { at + T.BYTES * N ≤ length b.now }
    ensures { result ≡ rows (T.value_at b.now) T.BYTES N at }
{
    array::from_fn(
        move |i: usize| -> T
            requires { at + T.BYTES * i + T.BYTES ≤ length b.now }
        { T::read(b, at + T::BYTES * i) },
    )
}

// Without the room nothing is put, and the answer is 0.
pub(crate) fn put_front<T: Form>(x: T, buf: &mut [u8]) -> usize
    requires { length (T.bytes x) ≡ T.BYTES }
    ensures { PutFront T.BYTES (T.bytes x) buf.old buf.new result }
{
    if buf.len() < T::BYTES {
        return 0;
    }
    x.put(buf, 0)
}
