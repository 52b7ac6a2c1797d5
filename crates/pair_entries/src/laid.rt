// The layout of a test of a module of a pair.
ghost use Rattle.std.specs.Prelude.{◌≡◌};
ghost use Rattle.pair_entries.specs.LaidPair.{layout_pair};

use super::refused::of_neither;
use pair::{PairRefusal, read_pair};
use units::{CaptureCycles, Wires};
use wrapper::WrapperLayout;

pub fn layout_pair(
    base: &[u8],
    overlay: &[u8],
    module: u32,
    test: u32,
    width: Wires,
    capture: CaptureCycles,
) -> Result<WrapperLayout, PairRefusal>
    ensures { result ≡ layout_pair base.now overlay.now «module» test width.0 capture.0 }
{
    let pair = read_pair(base, overlay)?;
    wrapper::layout(pair.soc, module, test, width, capture).map_err(of_neither)
}
