// The line reader, which holds the text and its place in it (document 01, "The SOC text").
#![tactic(auto)]

mod line_reader;
mod place;

pub use line_reader::due_line;
pub use place::{DueLine, Place};
