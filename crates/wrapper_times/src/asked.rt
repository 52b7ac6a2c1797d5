// What may be asked of times: a module's time, and its times at all widths. Refusals: 14, 7, 16, 13.
ghost use Rattle.std.specs.Prelude.{◌≡◌};
ghost use Rattle.wrapper_times.specs.TimeAnswers.{module_time_answer, module_times_answer};

use super::times::{Times, times_of};
use soc::Soc;
use units::{CaptureCycles, Cycles, Refusal, Wires};
use wrapper_scans::asked_module;

#[derive(Clone, Copy)]
pub struct ModuleTime {
    pub cycles: Cycles,
    pub wires: Wires,
}

// A module's time on a bus of a width, and its wires.
pub fn module_time(
    s: Soc,
    module: u32,
    width: Wires,
    capture: CaptureCycles,
) -> Result<ModuleTime, Refusal>
    ensures { result ≡ module_time_answer s «module» width.0 capture.0 }
{
    let d = asked_module(s, module, width, capture)?;
    let w = width.0 as usize;
    let times = times_of(d, w, capture.0);
    let last = w - 1;
    let cycles = times.cycles[last];
    let wires = times.wires[last];
    Ok(ModuleTime { cycles, wires })
}

// A module's times and wires at every width up to one, each figure computed once.
pub fn module_times(
    s: Soc,
    module: u32,
    width: Wires,
    capture: CaptureCycles,
) -> Result<Times, Refusal>
    ensures { result ≡ module_times_answer s «module» width.0 capture.0 }
{
    let d = asked_module(s, module, width, capture)?;
    Ok(times_of(d, width.0 as usize, capture.0))
}
