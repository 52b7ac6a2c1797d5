// SOC records, plan records, layouts and what was found within a budget as bytes, for callers in other languages: each figure at its own
// place, the lowest byte first.
#![tactic(auto)]

mod budget_form;
mod form;
mod layout_form;
mod plan_form;
mod plan_read;
mod soc_form;
mod soc_read;
mod word;

pub use budget_form::{BUDGET_BYTES, budget_bytes};
pub use layout_form::{LAYOUT_BYTES, layout_bytes};
pub use plan_form::{PLAN_BYTES, plan_bytes};
pub use plan_read::plan_in;
pub use soc_form::{SOC_BYTES, soc_bytes};
pub use soc_read::soc_in;
