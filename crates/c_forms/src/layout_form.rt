// A layout put into a lent buffer as its bytes. Without the room nothing is put, and the answer is 0.
ghost use Rattle.c_forms.specs.Words.{PutFront};
ghost use Rattle.c_forms.specs.LayoutForm.{layout_length, layout_bytes};

use super::form::{Form, put_each, put_front};
use super::word::{LONG_BYTES, WORD_BYTES};
use soc::CHAINS_MAX;
use wrapper_fit::WIDTH_MAX;
use wrapper_layout::WrapperLayout;

pub const LAYOUT_BYTES: usize = WORD_BYTES * (WIDTH_MAX as usize * 4 + CHAINS_MAX) + LONG_BYTES * 3;

impl Form for WrapperLayout {
    ghost BYTES = { layout_length };

    const BYTES: usize = LAYOUT_BYTES;

    ghost bytes = { layout_bytes };

    fn put(self, buf: &mut [u8], at: usize) -> usize {
        let a = put_each(buf, at, &self.flip_flops);
        let b = put_each(buf, a, &self.input_cells);
        let c = put_each(buf, b, &self.output_cells);
        let d = put_each(buf, c, &self.bidir_cells);
        let e = put_each(buf, d, &self.chain_of);
        let f = little_endian::put_u64(buf, e, self.si);
        let g = little_endian::put_u64(buf, f, self.so);
        little_endian::put_u64(buf, g, self.cycles.0)
    }
}

pub fn layout_bytes(l: WrapperLayout, buf: &mut [u8]) -> usize
    ensures { PutFront layout_length (layout_bytes l) buf.old buf.new result }
{
    put_front(l, buf)
}
