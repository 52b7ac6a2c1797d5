// A plan record written to its file, at the front of a lent buffer; or the refusal: 12, then 11.
ghost use Rattle.std.specs.Prelude.{◌≡◌, ◌≤◌, length};
ghost use Rattle.buffer.specs.Puts.{put_front};
ghost use Rattle.plan_file.specs.Bytes.{file_length, file_bytes};
ghost use Rattle.plan_file.specs.Puts.{Small};
ghost use Rattle.plan_file.specs.Files.{write_answer, write_leaves};

use super::put::put_trailer;
use super::rows::put_records;
use super::strides::{BUS_STRIDE, MODULE_STRIDE, TRAILER};
use plan_good::is_good_plan;
use plan_record::BusPlan;
use units::{Fault, Refusal};

// The trailer is written last, at the end of the part used.
fn put_file(b: &mut [u8], p: BusPlan)
    requires { Small p × (file_length p.module_count p.bus_count ≤ length b.old) }
    ensures { b.new ≡ put_front (file_bytes p) b.old }
{
    let buses = MODULE_STRIDE * p.module_count;
    let trailer = buses + BUS_STRIDE * p.bus_count;
    put_records(&mut *b, &p.modules[..p.module_count]);
    put_records(&mut b[buses..], &p.buses[..p.bus_count]);
    put_trailer(&mut b[trailer..], p);
}

#[tactic(auto, using(crate::proofs::FileLaws::counts_fit), unfolding(crate::specs::Files::write_answer, crate::specs::Files::write_leaves))]
pub fn write_plan(p: BusPlan, buf: &mut [u8]) -> Result<usize, Refusal>
    ensures { (result ≡ write_answer p buf.old) × (buf.new ≡ write_leaves p buf.old) }
{
    if !is_good_plan(p) {
        return Err(Refusal::at(Fault::BadPlan, 0));
    }
    let n = MODULE_STRIDE * p.module_count + BUS_STRIDE * p.bus_count + TRAILER;
    if buf.len() < n {
        return Err(Refusal::at(Fault::ShortBuffer, 0));
    }
    put_file(&mut *buf, p);
    Ok(n)
}
