// Rows of records, one behind another from a place on.
ghost use Rattle.std.specs.Prelude.{◌≡◌, ℕ, ◌+◌, ◌*◌, ◌≤◌, ◌<◌, length, get_or};
ghost use Rattle.units.specs.Places.{all_of, padded};
ghost use Rattle.buffer.specs.Puts.{put_front};
ghost use Rattle.little_endian.specs.Rows.{each, rows};

use super::record::Record;
use std::array;

// Each gets the part that starts at its offset.
pub(crate) fn put_records<R: Record>(b: &mut [u8], list: &[R])
    requires room { R.STRIDE * length list.now ≤ length b.old }
    requires small { (i : ℕ) (z : R) → i < length list.now → R.Small (get_or list.now i z) }
    ensures { b.new ≡ put_front (each R.bytes list.now) b.old }
{
    for (i, x) in list.iter().enumerate() {
        x.put(&mut b[R::STRIDE * i..]);
    }
}

// N places: the n records from a place on, and behind them none.
pub(crate) fn read_records<R: Record, const N: usize>(f: &[u8], from: usize, n: usize) -> [R; N]
    requires { (n ≤ N) × (from + R.STRIDE * n ≤ length f.now) }
    ensures { result ≡ padded N R.nothing (rows (R.value_at f.now) R.STRIDE n from) }
{
    array::from_fn(
        move |i: usize| -> R
            requires { i < n → from + R.STRIDE * i + R.STRIDE ≤ length f.now }
        {
            if i < n {
                R::read(f, from + R::STRIDE * i)
            } else {
                R::none()
            }
        },
    )
}

// Whether each of the n records from a place on has its zeros.
pub(crate) fn are_zero<R: Record>(f: &[u8], from: usize, n: usize) -> bool
    requires { from + R.STRIDE * n ≤ length f.now }
    ensures { result ≡ all_of (R.zero_at f.now) (rows (λ at. at) R.STRIDE n from) }
{
    (0..n).all(
        |i: usize| -> bool
            requires { from + R.STRIDE * i + R.STRIDE ≤ length f.now }
        { R::has_zeros(f, from + R::STRIDE * i) },
    )
}
