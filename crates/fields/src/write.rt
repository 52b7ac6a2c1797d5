// How numbers are written, at the front of a lent buffer. Without room nothing is written, and the answer is 0.
ghost use Rattle.std.specs.Prelude.{◌≡◌, ◌≤◌, ◌++◌, length, drop};
ghost use Rattle.buffer.specs.Puts.{put_front, put_count};
ghost use Rattle.fields.specs.WrittenLines.{decimal};

fn digit_count(v: u64) -> usize
    ensures { result ≡ length (decimal v) }
{
    if v < 10 { 1 } else { digit_count(v / 10) + 1 }
}

fn put_digits(buf: &mut [u8], v: u64) -> usize
    requires { length (decimal v) ≤ length buf.old }
    ensures { (result ≡ length (decimal v)) × (buf.new ≡ decimal v ++ drop (length (decimal v)) buf.old) }
{
    if v < 10 {
        buf[0] = (48 + v) as u8;
        return 1;
    }
    let k = put_digits(&mut *buf, v / 10);
    buf[k] = (48 + v % 10) as u8;
    k + 1
}

// A number in decimal.
pub fn write_number(buf: &mut [u8], v: u64) -> usize
    ensures { (result ≡ put_count (decimal v) buf.old) × (buf.new ≡ put_front (decimal v) buf.old) }
{
    if digit_count(v) <= buf.len() {
        put_digits(&mut *buf, v)
    } else {
        0
    }
}
