// The first planner (document 01, "The plan" and "Refusal numbers"; document 02, item 5): refusals 14, 7, 8, 16, 9, 10 in that order; then
// the tables of times, the search over them, and the record of what it finds.
ghost use Rattle.std.specs.Prelude.{◌≡◌, ◌≤◌};
ghost use Rattle.plan_search.specs.Search.{table_time, AreTimes};
ghost use Rattle.plan.specs.PlanAnswers.{limit_max, planned_max, best_for, record_of, plan_answer};
ghost use Rattle.plan.specs.Refused.{limits_kept};
ghost use Rattle.plan.specs.Records.{IsFound, buses_is, modules_is, record_from};
ghost use Rattle.plan.specs.Tables.{Plannable};

use super::limits::{LIMIT_MAX, PLANNED_MAX};
use super::tables::{Tables, tables_of};
use plan_record::{BUS_PLACES, Bus, BusPlan, MODULE_PLACES, PlacedModule, no_bus, no_placed};
use plan_search::{Found, ROW_PLACES, busy_of, search};
use soc::{Planned, Soc};
use units::{CaptureCycles, Cycles, Fault, Refusal, Wires};
use wrapper_fit::{CAPTURE_MAX, WIDTH_MAX};

// The buses of the plan that was found.
fn buses_of(table: &[u64], f: Found, n: usize) -> [Bus; BUS_PLACES]
    requires { AreTimes table.now n × IsFound f n }
    ensures { result ≡ buses_is (table_time table.now) f n }
{
    let mut list = [no_bus(); BUS_PLACES];
    for (b, width) in f.widths[..f.count].iter().enumerate() {
        let width = Wires(*width);
        list[b] = Bus {
            width,
            busy: busy_of(table, f.buses, n, b + 1, width),
        };
    }
    list
}

// The planned modules of the plan that was found.
fn modules_of(p: Planned, t: Tables, f: Found) -> [PlacedModule; MODULE_PLACES]
    requires { AreTimes t.cycles p.count × IsFound f p.count }
    ensures { result ≡ modules_is p t f }
{
    let mut list = [no_placed(); MODULE_PLACES];
    for (i, number) in p.numbers[..p.count].iter().enumerate() {
        let bus = f.buses[i] as usize;
        let width = f.widths[bus - 1];
        let at = i * ROW_PLACES + (width as usize - 1);
        list[i] = PlacedModule {
            number: *number,
            bus,
            wires: Wires(t.wires[at]),
            cycles: Cycles(t.cycles[at]),
            start: busy_of(&t.cycles, f.buses, i, bus, Wires(width)),
        };
    }
    list
}

// The record of what was found over the tables of the planned modules, whichever search found it.
pub fn record_of(p: Planned, t: Tables, wires: Wires, limit: u32, f: Found) -> BusPlan
    requires { AreTimes t.cycles p.count × IsFound f p.count }
    ensures { result ≡ record_from p t wires.0 limit f }
{
    BusPlan {
        wires,
        limit,
        bus_count: f.count,
        buses: buses_of(&t.cycles, f, p.count),
        module_count: p.count,
        modules: modules_of(p, t, f),
        time: f.time,
    }
}

// The plan for W wires and limit B, where nothing is refused.
fn found_plan(s: Soc, p: Planned, wires: Wires, limit: u32, capture: CaptureCycles) -> BusPlan
    requires { Plannable capture.0 s p wires.0 × (p.count ≤ planned_max) × (1 ≤ limit) × (limit ≤ limit_max) }
    ensures { result ≡ record_of capture.0 s wires.0 limit (best_for capture.0 s wires.0 limit) }
{
    let t = tables_of(s, p, wires, capture);
    let f = search(&t.cycles, wires, limit as usize, p.count);
    record_of(p, t, wires, limit, f)
}

// Whether a good SOC with n planned modules can be planned so: 7, 8, 16, 9, 10.
#[tactic(auto, unfolding(crate::specs::Refused::limits_kept))]
fn keep_limits(wires: Wires, limit: u32, capture: CaptureCycles, n: usize) -> Result<(), Fault>
    ensures { result ≡ limits_kept wires.0 limit capture.0 n }
{
    if !(1..=WIDTH_MAX).contains(&wires.0) {
        return Err(Fault::Width);
    }
    if !(1..=LIMIT_MAX).contains(&limit) {
        return Err(Fault::Buses);
    }
    if !(1..=CAPTURE_MAX).contains(&capture.0) {
        return Err(Fault::Capture);
    }
    if n < 1 {
        return Err(Fault::NonePlanned);
    }
    if n > PLANNED_MAX {
        return Err(Fault::ManyPlanned);
    }
    Ok(())
}

// The first plan of least time.
pub fn plan(s: Soc, wires: Wires, limit: u32, capture: CaptureCycles) -> Result<BusPlan, Refusal>
    ensures { result ≡ plan_answer s wires.0 limit capture.0 }
{
    if !soc::is_good(s) {
        return Err(Refusal::at(Fault::BadSoc, 0));
    }
    let p = soc::planned_modules(s);
    keep_limits(wires, limit, capture, p.count)?;
    Ok(found_plan(s, p, wires, limit, capture))
}
