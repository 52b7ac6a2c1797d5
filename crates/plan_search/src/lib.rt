// The search for the first plan of least time (document 01, "The plan") over a table of times. It knows numbers alone. What it shows is for the
// planner above it, which asks it for good tables only.
#![tactic(auto)]

mod busy;
mod groups;
mod least;
mod order;
mod place;
mod thumb;
mod widths;

pub use busy::busy_of;
pub use place::{
    FOUND_BUSES, FOUND_MODULES, ROW_PLACES, SEARCH_BUSES, SEARCH_MODULES, larger, time_at,
};
pub use widths::{Found, search};
