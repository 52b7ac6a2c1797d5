// The plan file (document 01, "The plan file"; document 02, item 1): what the test floor loads, written by parts and read back, and never a
// bad one accepted.
#![tactic(auto)]

mod put;
mod read;
mod record;
mod rows;
mod strides;
mod write;

pub use read::read_plan;
pub use write::write_plan;
