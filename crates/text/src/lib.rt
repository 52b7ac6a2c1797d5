// SOC texts (document 01, "The SOC text"): reading and writing under one name, and what they have to do with each other: which texts describe
// a record, and that a record written and read again is the same.
#![tactic(auto)]

pub use text_reader::read_soc;
pub use text_writer::write_soc;
