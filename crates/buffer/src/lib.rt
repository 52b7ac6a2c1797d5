// Bytes in lent buffers: put at a place, written all or not at all. A place is a count of bytes from the front.
#![tactic(auto)]

mod put;
mod written;

pub use put::{put_bytes, write_bytes};
pub use written::write;
