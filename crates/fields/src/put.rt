// Numbers put into a lent buffer at a place. The answer is the place behind them; without the room nothing is put, and it is the place
// itself.
ghost use Rattle.std.specs.Prelude.{◌≡◌};
ghost use Rattle.fields.specs.WrittenLines.{decimal};
ghost use Rattle.buffer.specs.Puts.{put_end, put_in};

pub fn put_number(buf: &mut [u8], at: usize, v: u64) -> usize
    ensures { (result ≡ put_end (decimal v) at buf.old) × (buf.new ≡ put_in (decimal v) at buf.old) }
{
    if buf.len() < at {
        return at;
    }
    at + super::write_number(&mut buf[at..], v)
}

// Bytes, and a number behind them: each is put if there is room for it, so the bytes may stand there without the number.
pub fn put_key(buf: &mut [u8], at: usize, w: &[u8], v: u64) -> usize
    ensures { (result ≡ put_end (decimal v) (put_end w.now at buf.old) (put_in w.now at buf.old)) × (buf.new ≡ put_in (decimal v) (put_end w.now at buf.old) (put_in w.now at buf.old)) }
{
    let e = buffer::put_bytes(&mut *buf, at, w);
    put_number(&mut *buf, e, v)
}
