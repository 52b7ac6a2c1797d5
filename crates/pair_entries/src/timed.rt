// The time of a module of a pair.
ghost use Rattle.std.specs.Prelude.{◌≡◌};
ghost use Rattle.pair_entries.specs.TimedPair.{module_time_pair};

use super::refused::of_neither;
use pair::{PairRefusal, read_pair};
use units::{CaptureCycles, Wires};
use wrapper::ModuleTime;

// A module's time on a bus of a width, and its wires.
pub fn module_time_pair(
    base: &[u8],
    overlay: &[u8],
    module: u32,
    width: Wires,
    capture: CaptureCycles,
) -> Result<ModuleTime, PairRefusal>
    ensures { result ≡ module_time_pair base.now overlay.now «module» width.0 capture.0 }
{
    let pair = read_pair(base, overlay)?;
    wrapper::module_time(pair.soc, module, width, capture).map_err(of_neither)
}
