// Planned modules: those with at least one test with TamUse 1.
ghost use Rattle.std.specs.Prelude.{◌≡◌};
ghost use Rattle.soc.specs.Planned.{is_planned, planned_of, planned_is};

use super::{MODULES_MAX, Module, Soc};

// The numbers of the planned modules, ascending; spare places are 0. There is no heap, so a count stands beside the array.
#[derive(Clone, Copy, PartialEq, Eq)]
pub struct Planned {
    pub count: usize,
    pub numbers: [usize; MODULES_MAX],
}

#[tactic(auto, unfolding(crate::specs::Planned::is_planned, units::specs::Places::any_of))]
pub fn is_planned(d: Module) -> bool
    ensures { result ≡ is_planned d }
{
    d.tests.iter().take(d.test_count).any(|t| t.tam_use)
}

pub fn planned_modules(s: Soc) -> Planned
    ensures { result ≡ planned_is (planned_of s) }
{
    let mut numbers = [0; MODULES_MAX];
    let mut count = 0;
    let n = s.module_count.min(MODULES_MAX);
    for (i, d) in s.modules[..n].iter().enumerate() {
        if is_planned(*d) {
            numbers[count] = i;
            count += 1;
        }
    }
    Planned { count, numbers }
}
