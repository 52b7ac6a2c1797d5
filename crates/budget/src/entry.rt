// The planner with a spending limit (document 02, item 7): refusals 14, 7, 8, 16, 9, 18 in that order; then the tables of times, the search over
// them within the budget, and the record of the best plan met.
ghost use Rattle.std.specs.Prelude.{◌≡◌, ◌≤◌};
ghost use Rattle.plan.specs.Tables.{Plannable};
ghost use Rattle.budget.specs.BudgetAnswers.{limit_max, budget_max, sought_for, ended_as, answer_of, budget_answer};
ghost use Rattle.budget.specs.Met.{limits_kept, met_in, Kept};

use super::answer::{BudgetAnswer, Ended};
use super::limits::{BUDGET_MAX, BUS_LIMIT_MAX};
use budget_search::{Spent, search_within};
use plan::{Tables, record_of, tables_of};
use plan_record::BusPlan;
use soc::{Planned, Soc};
use units::{CaptureCycles, Fault, Refusal, Wires};
use wrapper_fit::{CAPTURE_MAX, WIDTH_MAX};

// A search that was stopped needs more tries than the budget.
fn ended_as(stopped: bool) -> Ended
    ensures { result ≡ ended_as stopped }
{
    if stopped {
        Ended::Unfinished
    } else {
        Ended::Finished
    }
}

// The record of the best plan met, where one is known.
fn record_met(p: Planned, t: Tables, wires: Wires, limit: u32, spent: Spent) -> Option<BusPlan>
    requires { Kept p t spent }
    ensures { result ≡ met_in p t wires.0 limit spent }
{
    if !spent.known {
        return None;
    }
    Some(record_of(p, t, wires, limit, spent.found))
}

// What is answered where nothing is refused.
fn found_within(
    s: Soc,
    p: Planned,
    wires: Wires,
    limit: u32,
    capture: CaptureCycles,
    budget: u64,
) -> BudgetAnswer
    requires { Plannable capture.0 s p wires.0 × (1 ≤ p.count) × (1 ≤ limit) × (limit ≤ limit_max) × (budget ≤ budget_max) }
    ensures { result ≡ answer_of capture.0 s wires.0 limit (sought_for capture.0 s wires.0 limit budget) }
{
    let t = tables_of(s, p, wires, capture);
    let spent = search_within(&t.cycles, wires, limit as usize, p.count, budget);
    BudgetAnswer {
        ended: ended_as(spent.stopped),
        tries: spent.tries,
        plan: record_met(p, t, wires, limit, spent),
    }
}

// Whether n planned modules of a good SOC can be planned so: 7, 8, 16, 9, 18.
#[tactic(auto, unfolding(crate::specs::Met::limits_kept))]
fn keep_limits(
    wires: Wires,
    limit: u32,
    capture: CaptureCycles,
    n: usize,
    budget: u64,
) -> Result<(), Fault>
    ensures { result ≡ limits_kept wires.0 limit capture.0 n budget }
{
    if !(1..=WIDTH_MAX).contains(&wires.0) {
        return Err(Fault::Width);
    }
    if !(1..=BUS_LIMIT_MAX).contains(&limit) {
        return Err(Fault::Buses);
    }
    if !(1..=CAPTURE_MAX).contains(&capture.0) {
        return Err(Fault::Capture);
    }
    if n < 1 {
        return Err(Fault::NonePlanned);
    }
    // A fourth range in a row did not close.
    if budget < 1 || BUDGET_MAX < budget {
        return Err(Fault::Budget);
    }
    Ok(())
}

// The best plan met within a budget of tries.
pub fn plan_within(
    s: Soc,
    wires: Wires,
    limit: u32,
    capture: CaptureCycles,
    budget: u64,
) -> Result<BudgetAnswer, Refusal>
    ensures { result ≡ budget_answer s wires.0 limit capture.0 budget }
{
    if !soc::is_good(s) {
        return Err(Refusal::at(Fault::BadSoc, 0));
    }
    let p = soc::planned_modules(s);
    keep_limits(wires, limit, capture, p.count, budget)?;
    Ok(found_within(s, p, wires, limit, capture, budget))
}
