// Times (document 01, "The wrapper rule"; document 02, item 5): a module's time and wires on a bus of a width, and at every width
// up to one.
#![tactic(auto)]

mod asked;
mod times;

pub use asked::{ModuleTime, module_time, module_times};
pub use times::Times;
