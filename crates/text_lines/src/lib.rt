// The lines of a SOC text (document 01, "The SOC text"): each reader takes one line and answers its figures, or its first fault from the
// left.
#![tactic(auto)]

mod head;
mod level;
mod part;
mod second;
mod test;

pub use head::{Name, Options, key_name, name_line, options_line, total_line};
pub use level::{Chains, Shape, Terminals, level_line, shape_to_end};
pub use part::key_due;
pub use second::{SecondLine, second_line, tests_line};
pub use test::test_line;
