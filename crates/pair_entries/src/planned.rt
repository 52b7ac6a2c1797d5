// The first plan of least time of a pair.
ghost use Rattle.std.specs.Prelude.{◌≡◌};
ghost use Rattle.pair_entries.specs.PlannedPair.{plan_pair};

use super::refused::of_neither;
use pair::{PairRefusal, read_pair};
use plan_record::BusPlan;
use units::{CaptureCycles, Wires};

pub fn plan_pair(
    base: &[u8],
    overlay: &[u8],
    wires: Wires,
    limit: u32,
    capture: CaptureCycles,
) -> Result<BusPlan, PairRefusal>
    ensures { result ≡ plan_pair base.now overlay.now wires.0 limit capture.0 }
{
    let pair = match read_pair(base, overlay) {
        Ok(pair) => pair,
        Err(r) => return Err(r),
    };
    plan::plan(pair.soc, wires, limit, capture).map_err(of_neither)
}
