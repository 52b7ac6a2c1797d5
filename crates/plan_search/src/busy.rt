// The busy figure of a bus of the plan that was found (document 01, "The plan": "A bus is busy for the sum of its modules' times").
ghost use Rattle.std.specs.Prelude.{◌≡◌, ◌≤◌, take};
ghost use Rattle.plan_rules.specs.Plans.{busy_from};
ghost use Rattle.plan_search.specs.Search.{row_places, table_time, AreTimes};

use super::place::{FOUND_MODULES, time_at};
use units::{Cycles, Wires};

// How long bus b, from 1, of width w is busy.
pub fn busy_of(table: &[u64], buses: [u64; FOUND_MODULES], n: usize, b: usize, w: Wires) -> Cycles
    requires { AreTimes table.now n × (1 ≤ w.0) × (w.0 ≤ row_places) }
    ensures { result.0 ≡ busy_from (table_time table.now) 0 b w.0 (take n buses) }
{
    let mut sum = Cycles(0);
    for (i, bus) in buses[..n].iter().enumerate() {
        if *bus as usize == b {
            sum.0 += time_at(table, i, w).0;
        }
    }
    sum
}
