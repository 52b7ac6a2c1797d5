// The least time on buses of given widths (document 01, "The plan"), with the modules in whatever order the table has them: the order does not
// change it. Nothing is kept but the loads of the buses.
ghost use Rattle.std.specs.Prelude.{◌≡◌, ◌+◌, ◌-◌, ◌≤◌, ◌<◌, length};
ghost use Rattle.plan_rules.specs.Least.{least_on};
ghost use Rattle.plan_rules.specs.From.{least_from};
ghost use Rattle.plan_search.specs.Search.{row_places, best_max, table_time, IsTable, AreWidths};
ghost use Rattle.plan_search.specs.Least.{RestIs, Board, Loads, Reaches};

use super::place::{SEARCH_BUSES, SEARCH_MODULES, larger, time_at};
use units::{Cycles, Wires};

// For each module and behind the last one, the times at width w of the modules from there on.
fn sum_rest(table: &[u64], w: Wires, rest: &mut [u64])
    requires { IsTable table.now (length rest.old - 1) × (1 ≤ length rest.old) × (1 ≤ w.0) × (w.0 ≤ row_places) }
    ensures { RestIs table.now w.0 rest.new }
{
    let n = rest.len() - 1;
    rest[n] = 0;
    for i in (0..n).rev() {
        rest[i] = rest[i + 1] + time_at(table, i, w).0;
    }
}

// The smaller of best and the least time of the placements of module i and those behind it, or one that is enough. top is the largest load so
// far and load their sum. A try that reaches the best time is dropped; so is one whose loads and rest have no room below it on all buses.
fn least(
    table: &[u64],
    widths: &[u32],
    rest: &[u64],
    i: usize,
    top: Cycles,
    load: Cycles,
    loads: &mut [u64],
    best: Cycles,
    enough: Cycles,
) -> Cycles
    requires { Board table.now widths.now rest.now × Loads widths.now i top.0 load.0 loads.old
        × (i < length rest.now) × (best.0 ≤ best_max) }
    ensures loads_unchanged { loads.new ≡ loads.old }
    ensures reaches { Reaches (least_from (table_time table.now) widths.now (length rest.now - 1 - i) i
        loads.old best.0) enough.0 result.0 }
{
    if best.0 <= top.0 {
        return best;
    }
    let c = widths.len() as u64;
    if c * best.0 < load.0 + rest[i] + c {
        return best;
    }
    if i + 1 == rest.len() {
        return top;
    }
    let mut r = best;
    for b in 0..widths.len() {
        let t = time_at(table, i, Wires(widths[b]));
        let old = loads[b];
        let new = Cycles(old + t.0);
        let next = larger(top, new);
        loads[b] = new.0;
        r = least(
            table,
            widths,
            rest,
            i + 1,
            next,
            Cycles(load.0 + t.0),
            &mut *loads,
            r,
            enough,
        );
        loads[b] = old;
        if r.0 <= enough.0 {
            return r;
        }
    }
    r
}

// The smaller of best and the least time of n modules on buses of these widths, or one that is enough.
pub(crate) fn least_on(
    table: &[u64],
    n: usize,
    widths: &[u32],
    best: Cycles,
    enough: Cycles,
) -> Cycles
    requires { IsTable table.now n × AreWidths widths.now × (best.0 ≤ best_max) }
    ensures { Reaches (least_on (table_time table.now) n widths.now best.0) enough.0 result.0 }
{
    let c = widths.len();
    let mut rest = [0u64; SEARCH_MODULES + 1];
    sum_rest(table, Wires(widths[c - 1]), &mut rest[..n + 1]);
    let mut loads = [0u64; SEARCH_BUSES];
    least(
        table,
        widths,
        &rest[..n + 1],
        0,
        Cycles(0),
        Cycles(0),
        &mut loads[..c],
        best,
        enough,
    )
}
