// What is printed for an input, at the front of a lent buffer; or 11.
ghost use Rattle.std.specs.Prelude.{◌≡◌, ◌≤◌, length};
ghost use Rattle.buffer.specs.Puts.{Put};
ghost use Rattle.text_reader.specs.Reading.{read_soc};
ghost use Rattle.plan.specs.PlanAnswers.{plan_answer};
ghost use Rattle.listing.specs.Listing.{plan_printed, text_printed, listed, listing_max, listing_answer, listing_leaves};
ghost use Rattle.listing.specs.Rest.{Printed};

use super::asked::{Wanted, asked_of};
use super::put_lines::{put_plan, put_refusal};
use soc::Soc;
use units::{CaptureCycles, Refusal, Wires};

// A buffer of this length is always enough.
pub const LISTING_MAX: usize = 6144;

// What is printed for a record.
fn put_answer(buf: &mut [u8], s: Soc, k: Wanted) -> usize
    requires { listing_max ≤ length buf.old }
    ensures { Printed (plan_printed s (plan_answer s k.wires k.limit k.capture)) buf.old buf.new result }
{
    match plan::plan(s, Wires(k.wires), k.limit, CaptureCycles(k.capture)) {
        Ok(p) => put_plan(&mut *buf, 0, s, p),
        Err(r) => put_refusal(&mut *buf, 0, r),
    }
}

// What is printed for a SOC text, where the first line is good.
#[tactic(auto, unfolding(crate::specs::Listing::text_printed))]
fn put_text(buf: &mut [u8], text: &[u8], k: Wanted) -> usize
    requires { listing_max ≤ length buf.old }
    ensures { Printed (text_printed k (read_soc text.now)) buf.old buf.new result }
{
    match text_reader::read_soc(text) {
        Ok(s) => put_answer(&mut *buf, s, k),
        Err(refusal) => put_refusal(&mut *buf, 0, refusal),
    }
}

fn put_listed(buf: &mut [u8], input: &[u8]) -> usize
    requires { listing_max ≤ length buf.old }
    ensures { Put (listed input.now) 0 buf.old buf.new result × (length (listed input.now) ≤ listing_max) }
{
    let line = fields::line_at(input, 0);
    match asked_of(input, line) {
        Ok(k) => put_text(&mut *buf, &input[line.next..], k),
        Err(fault) => put_refusal(&mut *buf, 0, Refusal::at(fault, 0)),
    }
}

pub fn listing(input: &[u8], buf: &mut [u8]) -> Result<usize, Refusal>
    ensures { (result ≡ listing_answer input.now buf.old) × (buf.new ≡ listing_leaves input.now buf.old) × (length (listed input.now) ≤ listing_max) }
{
    let mut form = [0u8; LISTING_MAX];
    let n = put_listed(&mut form, input);
    buffer::write(&mut *buf, &form[..n])
}
