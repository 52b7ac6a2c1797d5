// The lines of a plan record at the front of a lent buffer; or the refusal: 12, then 11.
ghost use Rattle.std.specs.Prelude.{◌≡◌, ◌≤◌, length};
ghost use Rattle.buffer.specs.Puts.{Put};
ghost use Rattle.plan_record.specs.Record.{bus_places, module_places};
ghost use Rattle.listing.specs.Listing.{shown, show_answer, show_leaves};
ghost use Rattle.listing.specs.Room.{plan_room};

use plan_record::BusPlan;
use units::{Fault, Refusal};

// The lines of a plan record, without the name.
fn put_shown(buf: &mut [u8], p: BusPlan) -> usize
    requires { (p.bus_count ≤ bus_places) × (p.module_count ≤ module_places) × (plan_room ≤ length buf.old) }
    ensures { Put (shown p) 0 buf.old buf.new result × (length (shown p) ≤ plan_room) }
{
    let a = listing::put_counts(&mut *buf, 0, p);
    listing::put_rest(&mut *buf, a, p)
}

// A plan record's lines, without the name that it does not hold.
pub fn show(p: BusPlan, buf: &mut [u8]) -> Result<usize, Refusal>
    ensures { (result ≡ show_answer p buf.old) × (buf.new ≡ show_leaves p buf.old) }
{
    if !plan_good::is_good_plan(p) {
        return Err(Refusal::at(Fault::BadPlan, 0));
    }
    let mut form = [0u8; listing::LISTING_MAX];
    let n = put_shown(&mut form, p);
    buffer::write(buf, &form[..n])
}
