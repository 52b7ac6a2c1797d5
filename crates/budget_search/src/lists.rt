// The lists of widths in their order (document 02, item 7: "It goes through bus counts, width lists and bus numbers in the order of
// plans"), and the modules on the buses of each.
ghost use Rattle.std.specs.Prelude.{◌≡◌, ◌++◌, map, ◌-◌, ◌≤◌, length, take};
ghost use Rattle.budget_rules.specs.Tries.{placed_on, on_lists};
ghost use Rattle.plan_rules.specs.Listed.{width_lists};
ghost use Rattle.budget_search.specs.Steps.{budget_max, held_in};
ghost use Rattle.plan_search.specs.Search.{table_time, AreTimes};
ghost use Rattle.budget_search.specs.Place.{AreWidths, Rooms};
ghost use Rattle.budget_search.specs.Lists.{Begun};

use super::place::{BEST_PLACES, BUDGET_BUSES, BUDGET_MODULES, place};
use super::steps::{Progress, is_stopped};
use units::Wires;

// n modules on buses of these widths, all free.
fn placed_on(
    table: &[u64],
    n: usize,
    widths: &[u32],
    budget: u64,
    best: &mut [u32; BEST_PLACES],
    s: Progress,
) -> Progress
    requires { AreTimes table.now n × AreWidths widths.now × (budget ≤ budget_max) × Rooms best.old }
    ensures { (held_in n budget result best.new ≡
        placed_on (table_time table.now) budget n widths.now (held_in n budget s best.old))
        × Rooms best.new }
{
    let mut loads = [0u64; BUDGET_BUSES];
    let mut buses = [0u32; BUDGET_MODULES];
    place(
        table,
        widths,
        budget,
        0,
        0,
        &mut loads[..widths.len()],
        &mut buses[..n],
        &mut *best,
        s,
    )
}

// All lists of widths whose widths before `at` are set and whose next is at least low, where left wires are left. Once the search has
// stopped no list changes anything.
pub(crate) fn over_lists(
    table: &[u64],
    n: usize,
    budget: u64,
    at: usize,
    low: Wires,
    left: Wires,
    widths: &mut [u32],
    best: &mut [u32; BEST_PLACES],
    s: Progress,
) -> Progress
    requires { AreTimes table.now n × (1 ≤ n) × (budget ≤ budget_max) × Rooms best.old
        × Begun at low.0 left.0 widths.old }
    ensures { (held_in n budget result best.new ≡ on_lists (table_time table.now) budget n
        (map (λ ws. take at widths.old ++ ws) (width_lists (length widths.old - at) low.0 left.0))
        (held_in n budget s best.old))
        × Rooms best.new × (take at widths.new ≡ take at widths.old) }
{
    if is_stopped(s, budget) {
        return s;
    }
    let due = widths.len() - at;
    if left.0 < low.0 * (due as u32) {
        return s;
    }
    if due == 1 {
        widths[at] = left.0;
        return placed_on(table, n, &*widths, budget, &mut *best, s);
    }
    widths[at] = low.0;
    let r = over_lists(
        table,
        n,
        budget,
        at + 1,
        low,
        Wires(left.0 - low.0),
        &mut *widths,
        &mut *best,
        s,
    );
    over_lists(
        table,
        n,
        budget,
        at,
        Wires(low.0 + 1),
        left,
        &mut *widths,
        &mut *best,
        r,
    )
}
