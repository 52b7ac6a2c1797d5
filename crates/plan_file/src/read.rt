// A plan file read to its record; or 12. The reader is handed the part used and no more.
ghost use Rattle.std.specs.Prelude.{◌≡◌, true, false, MatchOption};
ghost use Rattle.plan_file.specs.Files.{trailer, module_count, bus_count, plan_in, good_length, good_offsets, good_file, read_answer};

use super::rows::{are_zero, read_records};
use super::strides::{BUS_STRIDE, MODULE_STRIDE, TRAILER};
use little_endian::{number_at, u64_at};
use plan_good::is_good_plan;
use plan_record::{BUS_PLACES, Bus, BusPlan, MODULE_PLACES, PlacedModule};
use units::{Cycles, Fault, Refusal, Wires};

// A file of a good length: the trailer is there, the counts keep their limits, and the records and the trailer are all.
#[derive(Clone, Copy)]
struct File<'a> {
    bytes: &'a [u8],
    // where the trailer begins
    at: usize,
    modules: usize,
    buses: usize,
    ghost good: { good_length bytes.now ≡ true },
    ghost ends: { at ≡ trailer bytes.now },
    ghost of_modules: { modules ≡ module_count bytes.now },
    ghost of_buses: { buses ≡ bus_count bytes.now },
}

#[tactic(auto, unfolding(crate::specs::Files::good_length))]
fn file_in(bytes: &[u8]) -> Option<File<'_>>
    ensures { MatchOption result (good_length bytes.now ≡ false) (λ f. f.bytes.now ≡ bytes.now) }
{
    if bytes.len() < TRAILER {
        return None;
    }
    let at = bytes.len() - TRAILER;
    let modules = usize::from(bytes[at + 7]);
    let buses = usize::from(bytes[at + 6]);
    if modules <= MODULE_PLACES
        && buses <= BUS_PLACES
        && bytes.len() == MODULE_STRIDE * modules + BUS_STRIDE * buses + TRAILER
    {
        Some(File {
            bytes,
            at,
            modules,
            buses,
        })
    } else {
        None
    }
}

impl File<'_> {
    #[tactic(auto, unfolding(crate::specs::Files::good_length, crate::specs::Files::plan_in))]
    fn plan(self) -> BusPlan
        ensures { result ≡ plan_in self.entry.bytes.now }
    {
        BusPlan {
            wires: Wires(u32::from(self.bytes[self.at + 4])),
            limit: u32::from(self.bytes[self.at + 5]),
            bus_count: self.buses,
            buses: read_records(self.bytes, MODULE_STRIDE * self.modules, self.buses),
            module_count: self.modules,
            modules: read_records(self.bytes, 0, self.modules),
            time: Cycles(u64_at(self.bytes, self.at + 8)),
        }
    }

    // The offsets of the trailer: of the first module record, always 0, and of the first bus record.
    #[tactic(auto, unfolding(crate::specs::Files::good_length, crate::specs::Files::good_offsets))]
    fn has_good_offsets(self) -> bool
        ensures { result ≡ good_offsets self.entry.bytes.now }
    {
        number_at::<2>(self.bytes, self.at) == 0
            && number_at::<2>(self.bytes, self.at + 2) == (MODULE_STRIDE * self.modules) as u64
    }

    // Whether a file that says p is good.
    #[tactic(auto, unfolding(crate::specs::Files::good_length, crate::specs::Files::good_file))]
    fn is_good(self, p: BusPlan) -> bool
        requires { p ≡ plan_in self.bytes.now }
        ensures { result ≡ good_file self.entry.bytes.now }
    {
        is_good_plan(p)
            && are_zero::<PlacedModule>(self.bytes, 0, self.modules)
            && are_zero::<Bus>(self.bytes, MODULE_STRIDE * self.modules, self.buses)
            && self.has_good_offsets()
    }
}

#[tactic(auto, unfolding(crate::specs::Files::good_file, crate::specs::Files::read_answer))]
pub fn read_plan(file: &[u8]) -> Result<BusPlan, Refusal>
    ensures { result ≡ read_answer file.now }
{
    let Some(f) = file_in(file) else {
        return Err(Refusal::at(Fault::BadPlan, 0));
    };
    let p = f.plan();
    if !f.is_good(p) {
        return Err(Refusal::at(Fault::BadPlan, 0));
    }
    Ok(p)
}
