// The first plan of least time (document 01, "The plan"). The least time and the first list of widths that has it are found with the modules by
// falling time; on that list alone they are then placed in ascending number, and the first placement that keeps to the time is the answer.
ghost use Rattle.std.specs.Prelude.{◌≡◌, ◌+◌, ◌-◌, ◌≤◌, ◌<◌, length, get_or, take, drop};
ghost use Rattle.plan_rules.specs.Listed.{placements, best_plan};
ghost use Rattle.plan_rules.specs.Plans.{time_of};
ghost use Rattle.plan_rules.specs.Least.{least_on, all_lists, keep_lists, keep_all, Stands};
ghost use Rattle.plan_search.specs.Search.{search_buses, search_modules, found_buses, found_modules, row_places, table_time, time_on};
ghost use Rattle.plan_search.specs.Search.{found_of, found_in, IsTable, AreWidths, IsHeld};
ghost use Rattle.units.specs.Places.{padded};
ghost use Rattle.plan_search.specs.Lists.{kept, Rooms, Listing};

use super::groups::over_group;
use super::order::{rows_in, sort_order};
use super::place::{FOUND_BUSES, FOUND_MODULES, SEARCH_BUSES, SEARCH_MODULES, place};
use super::thumb::bound_of;
use units::{Cycles, Wires};

// The first plan of least time: its buses, their widths, the bus of each module, and its time. Spare places are 0. There is no heap, so a
// count stands beside the arrays.
#[derive(Clone, Copy)]
pub struct Found {
    pub count: usize,
    pub widths: [u32; FOUND_BUSES],
    pub buses: [u64; FOUND_MODULES],
    pub time: Cycles,
}

// The first list of widths of least time below best; found gets its count and its widths.
fn first_list(
    table: &[u64],
    wires: Wires,
    limit: usize,
    n: usize,
    best: Cycles,
    found: &mut [u32],
) -> Cycles
    requires { Listing table.now wires.0 limit n best.0 found.old }
    ensures found_after { kept result.0 found.new ≡
        keep_lists (least_on (table_time table.now) n) (kept best.0 found.old) (all_lists wires.0 limit) }
    ensures found_in_bounds { get_or found.new 0 0 < length found.new }
{
    let mut widths = [0u32; SEARCH_BUSES];
    let mut r = best;
    for c in 1..=limit.min(wires.0 as usize) {
        r = over_group(
            table,
            n,
            0,
            Wires(1),
            Wires(wires.0 / (c as u32)),
            wires,
            &mut widths[..c],
            &mut *found,
            r,
        );
    }
    r
}

// The least time, and the first list of widths that has it: with the modules by falling time, from what a rule of thumb gives.
fn least_list(table: &[u64], wires: Wires, limit: usize, n: usize, found: &mut [u32]) -> Cycles
    requires { IsTable table.now n × (1 ≤ wires.0) × (wires.0 ≤ row_places) × (1 ≤ limit) × (limit ≤ search_buses)
        × Rooms search_buses found.old }
    ensures stands { Stands (time_of (table_time table.now)) n (kept result.0 found.new)
        (best_plan (table_time table.now) wires.0 limit n) }
    ensures found_in_bounds { get_or found.new 0 0 < length found.new }
{
    let mut order = [0usize; SEARCH_MODULES];
    sort_order(table, wires, &mut order[..n]);
    let rows = rows_in(table, &order[..n]);
    let bound = bound_of(&rows, wires, limit, n);
    first_list(&rows, wires, limit, n, Cycles(bound.0 + 1), &mut *found)
}

// The first placement on buses of these widths that takes less than best.
fn first_placement(table: &[u64], widths: &[u32], best: &mut [u64])
    requires { IsTable table.now (length best.old - 1) × AreWidths widths.now × (1 ≤ length best.old) }
    ensures { best.new ≡
        keep_all (time_on table.now widths.now) best.old
        (placements (length best.old - 1) (length widths.now)) }
{
    if best[0] == 0 {
        return;
    }
    let mut loads = [0u64; SEARCH_BUSES];
    let mut buses = [0u64; SEARCH_MODULES];
    place(
        table,
        widths,
        0,
        Cycles(0),
        &mut loads[..widths.len()],
        &mut buses[..best.len() - 1],
        &mut *best,
    );
}

// The first plan of least time for W wires and a limit of buses, over a table of the times of n modules.
pub fn search(table: &[u64], wires: Wires, limit: usize, n: usize) -> Found
    requires { IsTable table.now n × (1 ≤ wires.0) × (wires.0 ≤ row_places) × (1 ≤ limit) × (limit ≤ search_buses) }
    ensures { result ≡ found_of (table_time table.now) (best_plan (table_time table.now) wires.0 limit n) }
{
    let mut found = [0u32; SEARCH_BUSES + 1];
    let time = least_list(table, wires, limit, n, &mut found);
    let count = found[0] as usize;
    let mut best = [0u64; SEARCH_MODULES + 1];
    best[0] = time.0 + 1;
    first_placement(table, &found[1..count + 1], &mut best[..n + 1]);
    found_in(&best[..n + 1], &found)
}

// The widths behind their count, at the front of the places for them.
fn placed_widths(found: &[u32]) -> [u32; FOUND_BUSES]
    requires { (1 ≤ length found.now) × (get_or found.now 0 0 ≤ search_buses) × (get_or found.now 0 0 < length found.now) }
    ensures { result ≡ padded found_buses 0 (take (get_or found.now 0 0) (drop 1 found.now)) }
{
    let count = found[0] as usize;
    let mut widths = [0u32; FOUND_BUSES];
    widths[..count].copy_from_slice(&found[1..count + 1]);
    widths
}

// The bus numbers behind the time, at the front of the places for them.
fn placed_buses(best: &[u64]) -> [u64; FOUND_MODULES]
    requires { (1 ≤ length best.now) × (length best.now ≤ search_modules + 1) }
    ensures { result ≡ padded found_modules 0 (drop 1 best.now) }
{
    let mut buses = [0u64; FOUND_MODULES];
    buses[..best.len() - 1].copy_from_slice(&best[1..]);
    buses
}

// The plan that the buffers hold.
fn found_in(best: &[u64], found: &[u32]) -> Found
    requires { IsHeld best.now found.now }
    ensures { result ≡ found_in best.now found.now }
{
    Found {
        count: found[0] as usize,
        widths: placed_widths(found),
        buses: placed_buses(best),
        time: Cycles(best[0]),
    }
}
