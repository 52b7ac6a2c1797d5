// The SOC record, by value: what a SOC text says, within document 01's limits. Whether a handed record keeps the limits and rules of the
// text (refusal 14), and which of its modules are planned.
#![tactic(auto, unfolding(units::specs::Places::all_of))]

mod module_rules;
mod planned;
mod record;
mod rules;
mod test_rules;

pub use module_rules::keeps_level_rule;
pub use planned::{Planned, is_planned, planned_modules};
pub use record::{
    CHAINS_MAX, LENGTH_MAX, LEVEL_MAX, MODULES_MAX, Module, NOT_GIVEN, PATTERNS_MAX, POSITION_MAX,
    POWER_MAX, Soc, TERMINALS_MAX, TESTS_MAX, TEXT_MAX, Test, no_module, no_soc, no_test,
};
pub use rules::is_good;
pub use test_rules::keeps_pins_rule;
