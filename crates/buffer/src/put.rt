// Bytes put into a lent buffer: at its front, or at a place. Without the room nothing is put.
ghost use Rattle.std.specs.Prelude.{◌≡◌};
ghost use Rattle.buffer.specs.Puts.{put_front, put_count, put_end, put_in};

// At the front. The answer is how many bytes were written.
pub fn write_bytes(buf: &mut [u8], w: &[u8]) -> usize
    ensures { (result ≡ put_count w.now buf.old) × (buf.new ≡ put_front w.now buf.old) }
{
    if w.len() > buf.len() {
        return 0;
    }
    for (i, b) in w.iter().enumerate() {
        buf[i] = *b;
    }
    w.len()
}

// At a place. The answer is the place behind them, or without the room the place itself.
pub fn put_bytes(buf: &mut [u8], at: usize, w: &[u8]) -> usize
    ensures { (result ≡ put_end w.now at buf.old) × (buf.new ≡ put_in w.now at buf.old) }
{
    if buf.len() < at {
        return at;
    }
    at + write_bytes(&mut buf[at..], w)
}
