// The marks of a module's lines: where they were read.
ghost use Rattle.std.specs.Prelude.{◌≡◌};
ghost use Rattle.text_reader.specs.Marks.{new_marks};

// The place before a module's first line and the place behind its last.
#[derive(Clone, Copy)]
pub struct Marks {
    pub from: usize,
    pub to: usize,
}

// The marks of module m, where the lines of module i were read from a place to a place.
pub fn marked(marks: Marks, m: u32, i: u32, from: usize, to: usize) -> Marks
    ensures { result ≡ new_marks marks m i from to }
{
    if i == m {
        return Marks { from, to };
    }
    marks
}
