// The planner with a spending limit (document 02, item 7): the best plan met within a budget of tries, and whether the search was finished.
#![tactic(auto)]

mod answer;
mod entry;
mod limits;

pub use answer::{BudgetAnswer, Ended};
pub use entry::plan_within;
pub use limits::{BUDGET_MAX, BUS_LIMIT_MAX};
