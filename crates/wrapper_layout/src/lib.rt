// Layouts (document 01, "The wrapper rule"; document 02, items 2, 5 and 8): how a core's chains and cells are threaded through a wrapper
// of some width, and what a test with that layout takes at some number of capture cycles.
#![tactic(auto)]

mod asked;
mod laid;
mod places;

pub use laid::{WrapperLayout, layout};
