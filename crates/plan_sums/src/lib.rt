// The sums of a plan record (document 01, "The plan file"; document 02, item 1): whether its busy figures, its time and its starts are
// those of its own modules.
#![tactic(auto)]

mod starts;
mod times;

// For the crate of good records; not for callers.
pub use starts::has_good_starts;
pub use times::has_good_times;
