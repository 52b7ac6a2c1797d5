// A rule of thumb for an upper bound of the least time: on buses of equal width, with the rest of the wires on the last one, each module in turn
// goes to the bus where it ends earliest. Some plan takes that time; no more is promised of it.
ghost use Rattle.std.specs.Prelude.{◌≡◌, ◌+◌, ◌-◌, ◌*◌, ◌≤◌, ◌<◌, length};
ghost use Rattle.plan_rules.specs.Least.{Reached};
ghost use Rattle.plan_search.specs.Search.{search_buses, row_places, table_time, IsTable};
ghost use Rattle.plan_search.specs.Thumb.{AreBuses, Partly, Placeable};

use super::place::{SEARCH_BUSES, larger, time_at};
use units::{Cycles, Wires};

// The bus, from 0, on which module i ends earliest, the last of several.
fn earliest(table: &[u64], widths: &[u32], i: usize, loads: &[u64]) -> usize
    requires { IsTable table.now (i + 1) × AreBuses widths.now × Partly table.now widths.now i loads.now }
    ensures { result < length widths.now }
{
    let first = time_at(table, i, Wires(widths[0]));
    let mut ends = Cycles(loads[0] + first.0);
    let mut best: usize = 0;
    for b in 1..widths.len() {
        let t = time_at(table, i, Wires(widths[b]));
        let end = Cycles(loads[b] + t.0);
        if end.0 <= ends.0 {
            ends = end;
            best = b;
        }
    }
    best
}

// The time of the placement that the rule gives on buses of these widths.
fn thumb_on(table: &[u64], widths: &[u32], n: usize) -> Cycles
    requires { IsTable table.now n × AreBuses widths.now }
    ensures { Placeable table.now widths.now n result.0 }
{
    let c = widths.len();
    let mut loads = [0u64; SEARCH_BUSES];
    let mut top = Cycles(0);
    for i in 0..n {
        let b = earliest(table, widths, i, &loads[..c]);
        let t = time_at(table, i, Wires(widths[b]));
        let load = Cycles(loads[b] + t.0);
        loads[b] = load.0;
        top = larger(top, load);
    }
    top
}

// The time that the rule gives on c buses of w wires each, the last one with the rest.
fn thumb_even(table: &[u64], c: usize, w: Wires, wires: Wires, n: usize) -> Cycles
    requires { IsTable table.now n × (1 ≤ c) × (c ≤ search_buses) × (1 ≤ w.0) × (c * w.0 ≤ wires.0) × (wires.0 ≤ row_places) }
    ensures { Reached (table_time table.now) wires.0 c n result.0 }
{
    let mut widths = [w.0; SEARCH_BUSES];
    widths[c - 1] = wires.0 - (c - 1) as u32 * w.0;
    thumb_on(table, &widths[..c], n)
}

// The least time that the rule gives with c buses.
fn thumb_with(table: &[u64], c: usize, wires: Wires, n: usize) -> Cycles
    requires { IsTable table.now n × (1 ≤ c) × (c ≤ search_buses) × (c ≤ wires.0) × (wires.0 ≤ row_places) }
    ensures { Reached (table_time table.now) wires.0 c n result.0 }
{
    let mut best = thumb_even(table, c, Wires(1), wires, n);
    for w in 2..=wires.0 / c as u32 {
        let t = thumb_even(table, c, Wires(w), wires, n);
        if t.0 < best.0 {
            best = t;
        }
    }
    best
}

// The least time that the rule gives with up to limit buses.
pub(crate) fn bound_of(table: &[u64], wires: Wires, limit: usize, n: usize) -> Cycles
    requires { IsTable table.now n × (1 ≤ wires.0) × (wires.0 ≤ row_places) × (1 ≤ limit) × (limit ≤ search_buses) }
    ensures { Reached (table_time table.now) wires.0 limit n result.0 }
{
    let mut best = thumb_with(table, 1, wires, n);
    for c in 2..=limit.min(wires.0 as usize) {
        let t = thumb_with(table, c, wires, n);
        if t.0 < best.0 {
            best = t;
        }
    }
    best
}
