// A flag, or a figure that may be -1, put into a buffer at a place behind its key (document 01, "The SOC text": the written form). The
// answer is the place behind it.
ghost use Rattle.text_lines.specs.LineFields.{flag_field, given_field};
ghost use Rattle.text_writer.specs.Puts.{PutKey};

pub(crate) fn put_flag(buf: &mut [u8], at: usize, w: &[u8], b: bool) -> usize
    ensures { PutKey w.now (flag_field b) at buf.old buf.new result }
{
    fields::put_key(&mut *buf, at, w, u64::from(b))
}

// X, Y or Power: -1 where it is not given.
pub(crate) fn put_given(buf: &mut [u8], at: usize, w: &[u8], z: i32) -> usize
    ensures { PutKey w.now (given_field z) at buf.old buf.new result }
{
    if z < 0 {
        let e = buffer::put_bytes(&mut *buf, at, w);
        return buffer::put_bytes(&mut *buf, e, b"-1");
    }
    fields::put_key(&mut *buf, at, w, z as u64)
}
