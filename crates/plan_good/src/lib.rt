// Whether a plan record is good (document 01, "The plan file" and "Refusal numbers"; document 02, items 1 and 6).
#![tactic(auto)]

mod good;

pub use good::is_good_plan;
