// A SOC text read to its record, or to its first refusal (document 01, "The SOC text").
#![tactic(auto)]

mod block;
mod head;
mod marks;
mod read;
mod step;

// The steps that the reader of overlays shares, and what the reader of a pair asks for; callers want `read_soc`.
pub use block::{Body, module_rest};
pub use head::options_step;
pub use marks::{Marks, marked};
pub use read::{SocMarked, read_soc, read_soc_marked};
pub use step::{due, missing, taken};
