// Numbers in little-endian bytes, read from a place on and put at a place. A place is a count of bytes from the front. And rows of records
// in bytes, for the forms that are made of them.
#![tactic(auto)]

mod little;

pub use little::{number_at, put_u32, put_u64, u32_at, u64_at};
