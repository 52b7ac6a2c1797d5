// Whether a plan record is good (refusal 12).
ghost use Rattle.std.specs.Prelude.{◌≡◌, ◌≤◌, drop};
ghost use Rattle.units.specs.Places.{all_of};
ghost use Rattle.plan_rules.specs.Plans.{sum};
ghost use Rattle.plan_record.specs.Record.{bus_places, module_places, modules_of, buses_of, widths_of, numbers_of};
ghost use Rattle.plan_record.specs.Good.{good_counts, ascending_from, good_placed, rising_from, good_buses, spare_bus, spare_placed, good_plan};

use plan_record::{BUS_PLACES, BusPlan, MODULE_PLACES, PlacedModule};
use plan_sums::{has_good_starts, has_good_times};
use soc::MODULES_MAX;
use wrapper_fit::{MODULE_TIME_MAX, WIDTH_MAX};

// The highest number of a module.
const NUMBER_MAX: usize = MODULES_MAX - 1;

#[tactic(auto, unfolding(plan_record::specs::Good::good_counts))]
fn has_good_counts(p: &BusPlan) -> bool
    ensures { result ≡ good_counts p.now }
{
    (1..=WIDTH_MAX).contains(&p.wires.0)
        && (1..=BUS_PLACES).contains(&(p.limit as usize))
        && (1..=MODULE_PLACES).contains(&p.module_count)
}

#[tactic(auto, using(plan_record::proofs::GoodPlanLaws::ascending_step), unfolding(plan_record::specs::Good::ascending_from))]
fn is_ascending(p: &BusPlan) -> bool
    requires { p.now.module_count ≤ module_places }
    ensures { result ≡ ascending_from 1 (numbers_of (modules_of p.now)) }
{
    let mut low = 1;
    for m in &p.modules[..p.module_count] {
        if m.number < low || m.number > NUMBER_MAX {
            return false;
        }
        low = m.number + 1;
    }
    true
}

#[tactic(auto, unfolding(plan_record::specs::Good::good_placed))]
fn is_good_placed(p: &BusPlan, m: PlacedModule) -> bool
    requires { p.now.bus_count ≤ bus_places }
    ensures { result ≡ good_placed p.now m }
{
    (1..=p.bus_count).contains(&m.bus)
        && (1..=MODULE_TIME_MAX).contains(&m.cycles.0)
        && 1 <= m.wires.0
        && m.wires.0 <= p.buses[m.bus - 1].width.0
}

fn are_good_placed(p: &BusPlan) -> bool
    requires { (p.now.bus_count ≤ bus_places) × (p.now.module_count ≤ module_places) }
    ensures { result ≡ all_of (good_placed p.now) (modules_of p.now) }
{
    p.modules[..p.module_count]
        .iter()
        .all(|m| is_good_placed(p, *m))
}

#[tactic(auto, using(plan_record::proofs::GoodPlanLaws::rising_step), unfolding(plan_record::specs::Good::rising_from))]
fn is_rising(p: &BusPlan) -> bool
    requires { p.now.bus_count ≤ bus_places }
    ensures { result ≡ rising_from 1 (widths_of (buses_of p.now)) }
{
    let mut least = 1;
    for b in &p.buses[..p.bus_count] {
        if b.width.0 < least {
            return false;
        }
        least = b.width.0;
    }
    true
}

fn sum_widths(p: &BusPlan) -> u64
    requires { p.now.bus_count ≤ bus_places }
    ensures { result ≡ sum (widths_of (buses_of p.now)) }
{
    p.buses[..p.bus_count]
        .iter()
        .map(|b| u64::from(b.width.0))
        .sum()
}

#[tactic(auto, unfolding(plan_record::specs::Good::good_buses))]
fn has_good_buses(p: &BusPlan) -> bool
    requires { p.now.limit ≤ bus_places }
    ensures { result ≡ good_buses p.now }
{
    (1..=p.limit as usize).contains(&p.bus_count)
        && is_rising(p)
        && sum_widths(p) == u64::from(p.wires.0)
}

fn are_spare_buses(p: &BusPlan) -> bool
    ensures { result ≡ all_of spare_bus (drop p.now.bus_count p.now.buses) }
{
    p.buses
        .iter()
        .skip(p.bus_count)
        .all(|b| b.width.0 == 0 && b.busy.0 == 0)
}

#[tactic(auto, unfolding(plan_record::specs::Good::spare_placed))]
fn is_spare_placed(m: PlacedModule) -> bool
    ensures { result ≡ spare_placed m }
{
    m.number == 0 && m.bus == 0 && m.wires.0 == 0 && m.cycles.0 == 0 && m.start.0 == 0
}

fn are_spare_placed(p: &BusPlan) -> bool
    ensures { result ≡ all_of spare_placed (drop p.now.module_count p.now.modules) }
{
    p.modules
        .iter()
        .skip(p.module_count)
        .all(|m| is_spare_placed(*m))
}

// The bus count is looked at before the modules' buses, so that it is a place in the record; the answer is the same in any order.
#[tactic(auto, using(crate::proofs::GoodLaws::limits), unfolding(plan_record::specs::Good::spare_rest))]
pub fn is_good_plan(p: BusPlan) -> bool
    ensures { result ≡ good_plan p }
{
    has_good_counts(&p)
        && has_good_buses(&p)
        && is_ascending(&p)
        && are_good_placed(&p)
        && has_good_times(p)
        && has_good_starts(p)
        && are_spare_buses(&p)
        && are_spare_placed(&p)
}
