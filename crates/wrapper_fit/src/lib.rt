// The ground of the wrapper layer (document 01, "The wrapper rule"; document 02, items 4 and 5): its limits, and the rule for one element,
// over lengths alone.
#![tactic(auto)]

mod fit;
mod maxima;

// What the crates of scan lengths and layouts share; none of it is for callers.
pub use fit::{goes_to, longest_after, longest_of, longest_with};
pub use maxima::{CAPTURE_MAX, MODULE_TIME_MAX, WIDTH_MAX, WIDTH_PLACES};
