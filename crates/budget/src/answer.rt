// What the planner with a spending limit answers.
use plan_record::BusPlan;

// Whether the search needed no more tries than the budget.
#[derive(Clone, Copy, PartialEq, Eq)]
pub enum Ended {
    Finished,
    Unfinished,
}

// How the search ended, the tries that it spent, and the best plan met, where one is known.
#[derive(Clone, Copy)]
pub struct BudgetAnswer {
    pub ended: Ended,
    pub tries: u64,
    pub plan: Option<BusPlan>,
}
