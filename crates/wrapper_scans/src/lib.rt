// What times and layouts have in common (document 01, "The wrapper rule"; document 02, items 2, 4 and 5): the module that is asked for, its
// internal chains in their order, its scan lengths at a width and the time of a test.
#![tactic(auto)]

mod asked;
mod chains;
mod scans;

// For the crates of times and layouts; none of it is for callers.
pub use asked::asked_module;
pub use chains::{Chain, ChainLengths, Order, lengths_of, order_of};
pub use scans::{Scan, cycles_of, scan_at};
