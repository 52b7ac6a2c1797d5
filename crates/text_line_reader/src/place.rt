// A place among the lines of a text, and the line that is due there.

// Where a line begins, and its number.
#[derive(Clone, Copy)]
pub struct Place {
    pub at: usize,
    pub line: usize,
}

// The line that is due: where it begins and ends, its number, and the place behind it.
#[derive(Clone, Copy)]
pub struct DueLine {
    pub from: usize,
    pub to: usize,
    pub number: usize,
    pub behind: Place,
}
