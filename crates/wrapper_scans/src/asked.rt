// The module that is asked for, with a width and capture cycles. Refusals: 14, 7, 16, 13.
ghost use Rattle.std.specs.Prelude.{◌≡◌};
ghost use Rattle.wrapper_scans.specs.Held.{found_module};

use soc::{Module, Soc};
use units::{CaptureCycles, Fault, Wires};
use wrapper_fit::{CAPTURE_MAX, WIDTH_MAX};

#[tactic(auto, unfolding(crate::specs::Held::found_module, crate::specs::Asked::asked_module))]
pub fn asked_module(s: Soc, m: u32, w: Wires, capture: CaptureCycles) -> Result<Module, Fault>
    ensures { result ≡ found_module s m w.0 capture.0 }
{
    if !soc::is_good(s) {
        return Err(Fault::BadSoc);
    }
    if !(1..=WIDTH_MAX).contains(&w.0) {
        return Err(Fault::Width);
    }
    if !(1..=CAPTURE_MAX).contains(&capture.0) {
        return Err(Fault::Capture);
    }
    let i = m as usize;
    if s.module_count <= i {
        return Err(Fault::NotThere);
    }
    Ok(s.modules[i])
}
