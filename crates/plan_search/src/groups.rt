// The lists of widths in their order (document 01, "The plan"), and the first of them on which the time is least. Lists that begin alike are
// judged together: where no plan on buses as wide as each of them allows takes less than the best so far, none of them is looked at.
ghost use Rattle.std.specs.Prelude.{◌≡◌, false, [], ◌++◌, ◌∷◌, ◌+◌, ◌-◌, ◌≤◌, ◌<◌, length, take, drop};
ghost use Rattle.plan_rules.specs.Least.{least_on};
ghost use Rattle.plan_rules.specs.Widths.{widest};
ghost use Rattle.plan_search.specs.Search.{search_buses, best_max, table_time, IsTable, AreWidths};
ghost use Rattle.plan_search.specs.Lists.{Rooms, group, Group, Sought};

use super::least::least_on;
use units::{Cycles, Wires};

// Behind the widths that are set, the widest that each bus can be where the next is from low to high and left wires are left.
fn widen(widths: &mut [u32], at: usize, low: Wires, high: Wires, left: Wires)
    requires { Group at low.0 high.0 left.0 widths.old }
    ensures { widths.new ≡ take at widths.old ++ high.0 ∷
        widest (length widths.old - (at + 1)) low.0 (left.0 - low.0) }
{
    let c = widths.len();
    widths[at] = high.0;
    let mut left = left.0 - low.0;
    for j in at + 1..c {
        widths[j] = left / ((c - j) as u32);
        left -= low.0;
    }
}

// Whether a plan on buses of these widths takes less than the best so far.
fn may_beat(table: &[u64], n: usize, widths: &[u32], best: Cycles) -> bool
    requires { IsTable table.now n × AreWidths widths.now × (best.0 ≤ best_max) }
    ensures { result ≡ false → least_on (table_time table.now) n widths.now best.0 ≡ best.0 }
{
    0 < best.0 && least_on(table, n, widths, best, Cycles(best.0 - 1)).0 < best.0
}

// The widths become those of the best plan: how many, and behind that the widths.
fn keep_widths(widths: &[u32], found: &mut [u32])
    requires { (length widths.now ≤ search_buses) × (length widths.now < length found.old) }
    ensures { found.new ≡
        length widths.now ∷ widths.now ++ drop (length widths.now + 1) found.old }
{
    found[0] = widths.len() as u32;
    for (i, w) in widths.iter().enumerate() {
        found[i + 1] = *w;
    }
}

// The smaller of best and the least time on buses of these widths; if that is less, they are kept.
fn on_widths(table: &[u64], n: usize, widths: &[u32], found: &mut [u32], best: Cycles) -> Cycles
    requires { IsTable table.now n × AreWidths widths.now × (best.0 ≤ best_max) × Rooms (length widths.now) found.old }
    ensures { Sought table.now n (widths.now ∷ []) best.0 found.old result.0 found.new }
{
    let r = least_on(table, n, widths, best, Cycles(0));
    if r.0 < best.0 {
        keep_widths(widths, &mut *found);
    }
    r
}

// All lists of widths whose widths before `at` are set and of which the next is from low to high, where left wires are left.
pub(crate) fn over_group(
    table: &[u64],
    n: usize,
    at: usize,
    low: Wires,
    high: Wires,
    left: Wires,
    widths: &mut [u32],
    found: &mut [u32],
    best: Cycles,
) -> Cycles
    requires { IsTable table.now n × (best.0 ≤ best_max) × Group at low.0 high.0 left.0 widths.old
        × Rooms (length widths.old) found.old }
    ensures widths_unchanged { take at widths.new ≡ take at widths.old }
    ensures sought { Sought table.now n
        (group (take at widths.old) (length widths.old - (at + 1)) low.0 high.0 left.0)
        best.0 found.old result.0 found.new }
{
    let c = widths.len();
    if at + 1 == c {
        widths[at] = left.0;
        return on_widths(table, n, &*widths, &mut *found, best);
    }
    if low.0 == high.0 {
        widths[at] = low.0;
        let behind = Wires(left.0 - low.0);
        return over_group(
            table,
            n,
            at + 1,
            low,
            Wires(behind.0 / ((c - (at + 1)) as u32)),
            behind,
            &mut *widths,
            &mut *found,
            best,
        );
    }
    widen(&mut *widths, at, low, high, left);
    if !may_beat(table, n, &*widths, best) {
        return best;
    }
    let middle = (low.0 + high.0) / 2;
    let r = over_group(
        table,
        n,
        at,
        low,
        Wires(middle),
        left,
        &mut *widths,
        &mut *found,
        best,
    );
    over_group(
        table,
        n,
        at,
        Wires(middle + 1),
        high,
        left,
        &mut *widths,
        &mut *found,
        r,
    )
}
