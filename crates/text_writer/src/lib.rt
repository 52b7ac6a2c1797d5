// A SOC record written to its text, at the front of a lent buffer (document 01, "The SOC text": the written form).
#![tactic(auto)]

mod put;
mod write;
mod write_lines;

pub use write::write_soc;
