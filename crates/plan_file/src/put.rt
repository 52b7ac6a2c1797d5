// The trailer of a plan file, put at the front of the part that it is handed.
ghost use Rattle.std.specs.Prelude.{◌≡◌, ◌≤◌, length};
ghost use Rattle.buffer.specs.Puts.{put_front};
ghost use Rattle.plan_file.specs.Bytes.{trailer_length, trailer_bytes};
ghost use Rattle.plan_file.specs.Puts.{SmallTrailer};

use super::strides::MODULE_STRIDE;
use buffer::put_bytes;
use little_endian::put_u64;
use plan_record::BusPlan;

// The offsets of the first module record, always 0, and of the first bus record; W, B, buses, modules; the time.
pub(crate) fn put_trailer(b: &mut [u8], p: BusPlan)
    requires { (trailer_length ≤ length b.old) × SmallTrailer p }
    ensures { b.new ≡ put_front (trailer_bytes p) b.old }
{
    let buses = MODULE_STRIDE * p.module_count;
    let [low, high] = (buses as u16).to_le_bytes();
    let w = [
        0,
        0,
        low,
        high,
        p.wires.0 as u8,
        p.limit as u8,
        p.bus_count as u8,
        p.module_count as u8,
    ];
    let at = put_bytes(&mut *b, 0, &w);
    put_u64(&mut *b, at, p.time.0);
}
