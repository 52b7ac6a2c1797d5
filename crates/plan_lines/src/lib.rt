// The lines of a plan record as the printing program prints them (document 01, "The printing program"), without the name that it does
// not hold.
#![tactic(auto)]

mod shown;

pub use shown::show;
