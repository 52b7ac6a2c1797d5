// A form written to the front of a lent buffer, all of it or nothing.
ghost use Rattle.std.specs.Prelude.{◌≡◌};
ghost use Rattle.buffer.specs.Puts.{put_front};
ghost use Rattle.buffer.specs.Room.{all_or_none};
ghost use Rattle.buffer.specs.WriterAnswers.{written};

use super::put::write_bytes;
use units::{Fault, Refusal};

// How many of n bytes are written into a room: all of them, or none. A name of its own, since two edits of the gate bend it.
fn all_or_none(n: usize, room: usize) -> usize
    ensures { result ≡ all_or_none n room }
{
    if n <= room { n } else { 0 }
}

// The form w: how many bytes were written; or 11.
pub fn write(buf: &mut [u8], w: &[u8]) -> Result<usize, Refusal>
    ensures { (result ≡ written w.now buf.old) × (buf.new ≡ put_front w.now buf.old) }
{
    let n = w.len();
    let k = all_or_none(n, buf.len());
    write_bytes(&mut *buf, &w[..k]);
    if k < n {
        return Err(Refusal::at(Fault::ShortBuffer, 0));
    }
    Ok(n)
}
