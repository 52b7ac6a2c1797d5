// The pair of a SOC text and an overlay (document 02, item 3): the combined description, and the lines of a module as they stand.
#![tactic(auto)]

mod read;
mod shown;

pub use read::{Meant, PairRead, PairRefusal, read_pair};
pub use shown::{Shown, lines_shown, module_lines};
