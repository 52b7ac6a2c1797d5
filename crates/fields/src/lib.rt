// From bytes to lines, from lines to fields, from fields to numbers, keywords and names; and how numbers and fields are written
// (document 01, "The SOC text"). A place is a count of bytes from the front; a place behind the end has nothing behind it.
#![tactic(auto)]

mod byte;
mod field;
mod line;
mod name;
mod number;
mod put;
mod reader;
mod write;

pub use byte::{bad_byte, same_bytes};
pub use field::{is_blank, next_field};
pub use line::{NextLine, OneLine, line_at, next_line};
pub use name::{NAME_MAX, is_name};
pub use number::number_of;
pub use put::{put_key, put_number};
pub use reader::{figure_at, key_figure, past_word};
pub use write::write_number;
