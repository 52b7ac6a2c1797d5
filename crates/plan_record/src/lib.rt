// The plan record (document 01, "The plan"; document 02, item 1): its buses, its planned modules, their starts and busy figures, and its
// time; and, as definitions and laws, what a good one is (document 01, "The plan file").
#![tactic(auto)]

mod record;

pub use record::{
    BUS_PLACES, Bus, BusPlan, MODULE_PLACES, PlacedModule, no_bus, no_placed, no_plan,
};
