// The search with a spending limit (document 02, item 7) over a table of times. It knows numbers alone. What it shows is for the planner
// above it, which asks it for good tables only.
#![tactic(auto)]

mod lists;
mod place;
mod steps;
mod within;

pub use place::{BUDGET_BUSES, BUDGET_MODULES};
pub use within::{Spent, search_within};
