// The wrapper layer (document 01, "The wrapper rule"; document 02, items 2, 5 and 8): layouts and times under one name, and what they have
// to do with each other.
#![tactic(auto)]

pub use wrapper_fit::{CAPTURE_MAX, MODULE_TIME_MAX, WIDTH_MAX, WIDTH_PLACES};
pub use wrapper_layout::{WrapperLayout, layout};
pub use wrapper_times::{ModuleTime, Times, module_time, module_times};
