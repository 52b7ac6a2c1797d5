// The first planner (document 01, "The plan"): the first plan of least time.
#![tactic(auto)]

mod entry;
mod limits;
mod tables;

pub use entry::{plan, record_of};
pub use limits::{LIMIT_MAX, PLANNED_MAX};
pub use tables::{Tables, tables_of};
