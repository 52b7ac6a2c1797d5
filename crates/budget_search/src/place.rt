// Placing the modules on buses of given widths within a budget of tries (document 02, item 7): "placing a module tries each bus in turn,
// and each try goes on to place the next module." Numbers alone, in lent buffers, so that nothing is copied in a try.
ghost use Rattle.std.specs.Prelude.{◌≡◌, ◌++◌, ◌+◌, ◌-◌, ◌≤◌, ◌<◌, length, take, drop};
ghost use Rattle.budget_rules.specs.Tries.{placed};
ghost use Rattle.plan_rules.specs.Listed.{plan};
ghost use Rattle.budget_search.specs.Steps.{buses_max, modules_max, best_places, plan_in, held_in};
ghost use Rattle.plan_search.specs.Search.{table_time};
ghost use Rattle.budget_search.specs.Place.{Rooms, Ready, attempted, Placed};

use super::steps::{Progress, completed, count, halt, is_reached};
use plan_search::{FOUND_BUSES, FOUND_MODULES, time_at};
use units::Wires;

// The most buses and the most modules that the search has room for.
pub const BUDGET_BUSES: usize = FOUND_BUSES;

pub const BUDGET_MODULES: usize = FOUND_MODULES;

// Where the bus numbers of the best plan begin: before them are the count of its buses and their widths.
pub(crate) const BUSES_AT: usize = BUDGET_BUSES + 1;

// The places of the best plan. Every try hands it on, so it is lent as an array of them: a slice is a pointer and a length, which are stored
// anew for each call.
pub(crate) const BEST_PLACES: usize = BUDGET_MODULES + BUSES_AT;

// Numbers are put over those of a buffer from a place on.
fn put(from: &[u32], to: &mut [u32; BEST_PLACES], at: usize)
    requires { (at + length from.now ≤ best_places) × (length to.old ≡ best_places) }
    ensures { (to.new ≡ take at to.old ++
        (from.now ++ drop (at + length from.now) to.old)) × (length to.new ≡ best_places) }
{
    for (i, n) in from.iter().enumerate() {
        to[at + i] = *n;
    }
}

// The plan becomes the best: the count of its buses, their widths, the bus numbers.
fn keep_plan(widths: &[u32], buses: &[u32], best: &mut [u32; BEST_PLACES])
    requires { (length widths.now ≤ buses_max) × (length buses.now ≤ modules_max) × Rooms best.old }
    ensures { (plan_in (length buses.now) best.new ≡ plan widths.now buses.now)
        × Rooms best.new }
{
    best[0] = widths.len() as u32;
    put(widths, &mut *best, 1);
    put(buses, &mut *best, BUSES_AT);
}

// Module i and those behind it on each bus in turn: on the first one when all are left. top is the largest busy figure.
#[cycle(attempt_place)]
pub(crate) fn place(
    table: &[u64],
    widths: &[u32],
    budget: u64,
    i: usize,
    top: u64,
    loads: &mut [u64],
    buses: &mut [u32],
    best: &mut [u32; BEST_PLACES],
    s: Progress,
) -> Progress
    requires { Ready table.now widths.now budget i top loads.old buses.old best.old }
    ensures { Placed budget i loads.old loads.new buses.old buses.new best.new result
        (placed (table_time table.now) widths.now budget (length buses.old - i) i
        loads.old (take i buses.old) (held_in (length buses.old) budget s best.old)) }
{
    if i == buses.len() {
        if is_reached(s, top) {
            return s;
        }
        keep_plan(widths, &*buses, &mut *best);
        return completed(s, top);
    }
    let mut r = s;
    for bus in 0..widths.len() {
        r = attempt(
            table,
            widths,
            budget,
            i,
            top,
            bus,
            &mut *loads,
            &mut *buses,
            &mut *best,
            r,
        );
    }
    r
}

// One try: module i on bus b, from 0.
#[cycle(attempt_place)]
fn attempt(
    table: &[u64],
    widths: &[u32],
    budget: u64,
    i: usize,
    top: u64,
    b: usize,
    loads: &mut [u64],
    buses: &mut [u32],
    best: &mut [u32; BEST_PLACES],
    s: Progress,
) -> Progress
    requires ready { Ready table.now widths.now budget i top loads.old buses.old best.old }
    requires i_in_bounds { (i < length buses.old) × (b < length widths.now) }
    ensures { Placed budget i loads.old loads.new buses.old buses.new best.new result
        (attempted (table_time table.now) widths.now budget (length buses.old - (i + 1)) i
        loads.old (take i buses.old) b (held_in (length buses.old) budget s best.old)) }
{
    if budget <= s.tries {
        return halt(s, budget);
    }
    let spent = count(s);
    let old = loads[b];
    let t = time_at(table, i, Wires(widths[b]));
    let busy = old + t.0;
    if is_reached(spent, busy) {
        return spent;
    }
    loads[b] = busy;
    buses[i] = b as u32 + 1;
    let r = place(
        table,
        widths,
        budget,
        i + 1,
        top.max(busy),
        &mut *loads,
        &mut *buses,
        &mut *best,
        spent,
    );
    loads[b] = old;
    r
}
