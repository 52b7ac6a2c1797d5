// Numbers in little-endian bytes: read from a place on, where a byte behind the end counts as 0, and put at a place.
ghost use Rattle.std.specs.Prelude.{◌≡◌, ◌^◌, ◌<◌, ◌≤◌};
ghost use Rattle.little_endian.specs.Little.{little, number_at};
ghost use Rattle.buffer.specs.Puts.{put_end, put_in};

use buffer::put_bytes;

// The number in the N bytes from a place on.
pub fn number_at<const N: usize>(b: &[u8], at: usize) -> u64
    requires { N ≤ 8 }
    ensures { (result ≡ number_at N b.now at) × (result < 256 ^ N) }
{
    let rest = &b[at.min(b.len())..];
    let n = N.min(rest.len());
    let mut w = [0; 8];
    w[..n].copy_from_slice(&rest[..n]);
    u64::from_le_bytes(w)
}

pub fn u32_at(b: &[u8], at: usize) -> u32
    ensures { result ≡ number_at 4 b.now at }
{
    number_at::<4>(b, at) as u32
}

pub fn u64_at(b: &[u8], at: usize) -> u64
    ensures { result ≡ number_at 8 b.now at }
{
    number_at::<8>(b, at)
}

// The lowest N bytes of v.
fn put_number<const N: usize>(buf: &mut [u8], at: usize, v: u64) -> usize
    requires { N ≤ 8 }
    ensures { (result ≡ put_end (little N v) at buf.old) × (buf.new ≡ put_in (little N v) at buf.old) }
{
    let w = v.to_le_bytes();
    put_bytes(&mut *buf, at, &w[..N])
}

// The lowest 4 bytes of v.
pub fn put_u32(buf: &mut [u8], at: usize, v: u64) -> usize
    ensures { (result ≡ put_end (little 4 v) at buf.old) × (buf.new ≡ put_in (little 4 v) at buf.old) }
{
    put_number::<4>(&mut *buf, at, v)
}

pub fn put_u64(buf: &mut [u8], at: usize, v: u64) -> usize
    ensures { (result ≡ put_end (little 8 v) at buf.old) × (buf.new ≡ put_in (little 8 v) at buf.old) }
{
    put_number::<8>(&mut *buf, at, v)
}
