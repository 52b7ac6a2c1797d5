// The whole search with a spending limit (document 02, item 7), and its answer.
ghost use Rattle.std.specs.Prelude.{◌≡◌, ◌≤◌, min, get_or};
ghost use Rattle.units.specs.Places.{padded};
ghost use Rattle.budget_rules.specs.Tries.{searched};
ghost use Rattle.budget_search.specs.Steps.{buses_max, modules_max, plan_in, held_in};
ghost use Rattle.plan_search.specs.Search.{table_time};
ghost use Rattle.budget_search.specs.Place.{Rooms};
ghost use Rattle.budget_search.specs.Within.{Limits, none_found, spent_of};

use super::lists::over_lists;
use super::place::{BEST_PLACES, BUDGET_BUSES, BUDGET_MODULES, BUSES_AT};
use super::steps::{NO_TIME, Progress, is_stopped, tries_of};
use plan_search::Found;
use units::{Cycles, Wires};

// The best plan, where one is known; whether the search was stopped, and the tries that it spent.
#[derive(Clone, Copy)]
pub struct Spent {
    pub known: bool,
    pub stopped: bool,
    pub tries: u64,
    pub found: Found,
}

// The bus counts in turn.
fn over_counts(
    table: &[u64],
    wires: Wires,
    limit: usize,
    n: usize,
    budget: u64,
    best: &mut [u32; BEST_PLACES],
) -> Progress
    requires { Limits table.now wires.0 limit n budget × Rooms best.old }
    ensures { (held_in n budget result best.new ≡ searched (table_time table.now) wires.0 limit n budget)
        × Rooms best.new }
{
    let most = limit.min(wires.0 as usize);
    let mut widths = [0u32; BUDGET_BUSES];
    let mut r = Progress {
        best: NO_TIME,
        tries: 0,
    };
    // `1..=most` is no plainer: the loop then has a second way out, whose answer only a name of the prover's own could give.
    for c in 1..most + 1 {
        r = over_lists(
            table,
            n,
            budget,
            0,
            Wires(1),
            wires,
            &mut widths[..c],
            &mut *best,
            r,
        );
    }
    r
}

// The widths that the buffer holds.
fn widths_in(best: [u32; BEST_PLACES]) -> [u32; BUDGET_BUSES]
    requires { get_or best 0 0 ≤ buses_max }
    ensures { result ≡ padded buses_max 0 (plan_in modules_max best).widths }
{
    let count = best[0] as usize;
    let mut widths = [0u32; BUDGET_BUSES];
    widths[..count].copy_from_slice(&best[1..count + 1]);
    widths
}

// The bus numbers of n modules that it holds, as an answer has them.
fn buses_in(best: [u32; BEST_PLACES], n: usize) -> [u64; BUDGET_MODULES]
    requires { n ≤ modules_max }
    ensures { result ≡ padded modules_max 0 (plan_in n best).buses }
{
    let mut buses = [0u64; BUDGET_MODULES];
    for (i, b) in best[BUSES_AT..BUSES_AT + n].iter().enumerate() {
        buses[i] = u64::from(*b);
    }
    buses
}

// Nothing was found.
fn none_found() -> Found
    ensures { result ≡ none_found }
{
    Found {
        count: 0,
        widths: [0u32; BUDGET_BUSES],
        buses: [0u64; BUDGET_MODULES],
        time: Cycles(0),
    }
}

// The answer, from what goes along at the end of the search.
fn spent_of(s: Progress, budget: u64, n: usize, best: [u32; BEST_PLACES]) -> Spent
    requires { (n ≤ modules_max) × Rooms best }
    ensures { result ≡ spent_of (held_in n budget s best) }
{
    let stopped = is_stopped(s, budget);
    let tries = tries_of(s, budget);
    let time = s.best;
    if NO_TIME <= time {
        return Spent {
            known: false,
            stopped,
            tries,
            found: none_found(),
        };
    }
    let widths = widths_in(best);
    let buses = buses_in(best, n);
    Spent {
        known: true,
        stopped,
        tries,
        found: Found {
            count: best[0] as usize,
            widths,
            buses,
            time: Cycles(time),
        },
    }
}

// The search for W wires, a limit of buses and n modules, over a table of their times, with at most so many tries.
pub fn search_within(table: &[u64], wires: Wires, limit: usize, n: usize, budget: u64) -> Spent
    requires { Limits table.now wires.0 limit n budget }
    ensures { result ≡ spent_of (searched (table_time table.now) wires.0 limit n budget) }
{
    let mut best = [0u32; BEST_PLACES];
    let r = over_counts(table, wires, limit, n, budget, &mut best);
    spent_of(r, budget, n, best)
}
