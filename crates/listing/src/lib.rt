// The printing program's work (document 01, "The printing program"; document 02, item 5) on slices: the line `Plan W B`, with c or without,
// the SOC text behind it, the planner, and the printed lines, or the line of the refusal.
#![tactic(auto)]

mod asked;
mod entry;
mod put_lines;

pub use entry::{LISTING_MAX, listing};
pub use put_lines::{put_counts, put_rest};
