// Busy figures and the time of a record, judged by its own modules.
ghost use Rattle.std.specs.Prelude.{◌≡◌, ◌≤◌, Bool};
ghost use Rattle.plan_rules.specs.Plans.{largest};
ghost use Rattle.plan_record.specs.Record.{bus_places, buses_of, modules_of, busies_of, cycles_on};
ghost use Rattle.plan_record.specs.Good.{good_busies, good_times};
ghost use Rattle.plan_record.specs.declared.record.PlacedModule.{PlacedModule};
ghost use Rattle.plan_sums.specs.Times.{CyclesFit, cycles_where};

use plan_record::{BusPlan, PlacedModule};

// The cycles of the modules that count.
pub(crate) fn cycles_where<F: Fn(PlacedModule) -> bool>(p: &BusPlan, counts: F) -> u64
    requires fit { CyclesFit p.now }
    requires pre { (m : PlacedModule) → F.pre counts m }
    ensures { (t : PlacedModule → Bool) → ((m : PlacedModule) (b : Bool) → F.post counts m b → b ≡ t m)
        → result ≡ cycles_where t (modules_of p.now) }
{
    let mut sum = 0;
    for m in &p.modules[..p.module_count] {
        if counts(*m) {
            sum += m.cycles.0;
        }
    }
    sum
}

// The cycles of the modules on bus b.
fn cycles_on(p: &BusPlan, b: usize) -> u64
    requires { CyclesFit p.now }
    ensures { result ≡ cycles_on b (modules_of p.now) }
{
    cycles_where(p, |m| m.bus == b)
}

fn has_good_busy(p: &BusPlan) -> bool
    requires { (p.now.bus_count ≤ bus_places) × CyclesFit p.now }
    ensures { result ≡ good_busies (modules_of p.now) 1 (buses_of p.now) }
{
    p.buses[..p.bus_count]
        .iter()
        .enumerate()
        .all(|(i, x)| x.busy.0 == cycles_on(p, i + 1))
}

fn largest_busy(p: &BusPlan) -> u64
    requires { p.now.bus_count ≤ bus_places }
    ensures { result ≡ largest (busies_of (buses_of p.now)) }
{
    p.buses[..p.bus_count]
        .iter()
        .map(|x| x.busy.0)
        .max()
        .unwrap_or(0)
}

#[tactic(auto, unfolding(plan_record::specs::Good::good_times))]
pub fn has_good_times(p: BusPlan) -> bool
    requires { (p.bus_count ≤ bus_places) × CyclesFit p }
    ensures { result ≡ good_times p }
{
    has_good_busy(&p) && p.time.0 == largest_busy(&p)
}
