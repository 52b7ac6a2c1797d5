// "Plan, layout and writing work on the pair." (document 02, item 3): each entry on a SOC record, asked of a base and an overlay.
#![tactic(auto)]

mod laid;
mod planned;
mod refused;
mod timed;
mod written;

pub use laid::layout_pair;
pub use planned::plan_pair;
pub use timed::module_time_pair;
pub use written::write_pair;
