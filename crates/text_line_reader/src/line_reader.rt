// The line reader: it holds the text and its place in it (document 01, "The SOC text"). Its methods are few and thin: each takes the reader
// apart, and leaves the work to a function on a slice and numbers.
ghost use Rattle.std.specs.Prelude.{◌≡◌};
ghost use Rattle.text_line_reader.specs.Due.{Inside, DueIs, place_at, place_of};

use super::place::{DueLine, Place};

#[derive(Drop)]
pub struct LineReader<'a> {
    pub text: &'a [u8],
    // where the line begins
    pub at: usize,
    // its number
    pub line: usize,
}

// The next line that is not blank, from a place on.
fn line_from(text: &[u8], at: usize, line: usize) -> Option<DueLine>
    requires { Inside text.now (place_at at line) }
    ensures { DueIs text.now (place_at at line) result }
{
    let l = fields::next_line(text, at)?;
    let number = line + l.passed;
    Some(DueLine {
        from: l.from,
        to: l.to,
        number,
        behind: Place {
            at: l.next,
            line: number + 1,
        },
    })
}

impl<'a> LineReader<'a> {
    // At the first line of a text.
    pub(crate) fn new(text: &'a [u8]) -> LineReader<'a>
        ensures { (result.text ≡ text.entry) × (result.at ≡ 0) × (result.line ≡ 1) }
    {
        LineReader {
            text,
            at: 0,
            line: 1,
        }
    }

    // Moved on to the line with a number that begins at a place.
    pub(crate) fn moved(self, at: usize, line: usize) -> LineReader<'a>
        ensures { (result.text ≡ self.entry.text) × (result.at ≡ at) × (result.line ≡ line) }
    {
        LineReader {
            text: self.text,
            at,
            line,
        }
    }

    // The next line that is not blank, with its number.
    pub(crate) fn next_line(self) -> Option<DueLine>
        requires { Inside self.text.now (place_of self) }
        ensures { DueIs self.entry.text.now (place_of self.entry) result }
    {
        line_from(self.text, self.at, self.line)
    }
}

// The one function above the reader whose parameters are plain: whoever calls it needs no walk.
pub fn due_line(text: &[u8], p: Place) -> Option<DueLine>
    requires { Inside text.now p }
    ensures { DueIs text.now p result }
{
    LineReader::new(text).moved(p.at, p.line).next_line()
}
