// Placing the modules on buses of given widths (document 01, "The plan"), in the order of bus numbers from the lowest module. Numbers
// alone, in lent buffers, so that nothing is copied on the way.
ghost use Rattle.std.specs.Prelude.{◌≡◌, ◌∷◌, ◌+◌, max, length};
ghost use Rattle.plan_search.specs.Search.{table_time, TimeIn, Ready, Placed};

use units::{Cycles, Wires};

// The most buses and the most modules that the search has room for.
pub const SEARCH_BUSES: usize = 3;

pub const SEARCH_MODULES: usize = 12;

// The places of an answer for buses and for modules, whichever search gives it: those of a plan record.
pub const FOUND_BUSES: usize = 8;

pub const FOUND_MODULES: usize = 39;

// The places of each module in a table of times: one for each width.
pub const ROW_PLACES: usize = 64;

// The time of module i, from 0, at width w.
pub fn time_at(table: &[u64], i: usize, w: Wires) -> Cycles
    requires { TimeIn table.now i w.0 }
    ensures { result.0 ≡ table_time table.now i w.0 }
{
    Cycles(table[i * ROW_PLACES + (w.0 as usize - 1)])
}

pub fn larger(a: Cycles, b: Cycles) -> Cycles
    ensures { result.0 ≡ max a.0 b.0 }
{
    Cycles(a.0.max(b.0))
}

// Every module has its bus, and the plan takes less than the best so far: its time and its bus numbers become the best.
fn keep(top: Cycles, buses: &[u64], best: &mut [u64])
    requires { length best.old ≡ length buses.now + 1 }
    ensures { best.new ≡ top.0 ∷ buses.now }
{
    best[0] = top.0;
    for (i, bus) in buses.iter().enumerate() {
        best[i + 1] = *bus;
    }
}

// Module i and those behind it on each bus in turn. top is the largest busy figure so far; a try that reaches the best time is dropped.
pub(crate) fn place(
    table: &[u64],
    widths: &[u32],
    i: usize,
    top: Cycles,
    loads: &mut [u64],
    buses: &mut [u64],
    best: &mut [u64],
)
    requires { Ready table.now widths.now i top.0 loads.old buses.old best.old }
    ensures { Placed table.now widths.now i
        loads.old loads.new buses.old buses.new best.old best.new }
{
    if i == buses.len() {
        keep(top, &*buses, &mut *best);
        return;
    }
    for b in 0..widths.len() {
        let w = Wires(widths[b]);
        let old = Cycles(loads[b]);
        let t = time_at(table, i, w);
        let load = Cycles(old.0 + t.0);
        let next = larger(top, load);
        if next.0 < best[0] {
            loads[b] = load.0;
            buses[i] = b as u64 + 1;
            place(
                table,
                widths,
                i + 1,
                next,
                &mut *loads,
                &mut *buses,
                &mut *best,
            );
            loads[b] = old.0;
        }
    }
}
