// The lines of a text: each ends in LF or CRLF, the last may lack its end, and blank ones are skipped but counted.
ghost use Rattle.std.specs.Prelude.{◌≡◌, ◌+◌, ◌<◌, length, drop};
ghost use Rattle.fields.specs.Lines.{until_lf, line_to, line_at, NextLineIs};

// A line's place without its end, and where the next line begins.
#[derive(Clone, Copy)]
pub struct OneLine {
    pub to: usize,
    pub next: usize,
}

// The next line that is not blank: where it begins and ends, where the line behind it begins, and how many blank lines were passed.
#[derive(Clone, Copy)]
pub struct NextLine {
    pub from: usize,
    pub to: usize,
    pub next: usize,
    pub passed: usize,
}

fn past_line(text: &[u8], from: usize) -> usize
    ensures { result ≡ from + until_lf (drop from text.now) }
{
    for i in from..text.len() {
        if text[i] == 10 {
            return i;
        }
    }
    from.max(text.len())
}

// Where the line from a place, whose LF is at e, ends: before a CR that stands before the LF.
fn line_to(text: &[u8], from: usize, e: usize) -> usize
    requires { e < length text.now }
    ensures { result ≡ line_to text.now from e }
{
    if from < e && text[e - 1] == 13 {
        return e - 1;
    }
    e
}

// The line that begins at a place.
pub fn line_at(text: &[u8], from: usize) -> OneLine
    ensures { result ≡ line_at text.now from }
{
    let e = past_line(text, from);
    if text.len() <= e {
        return OneLine { to: e, next: e };
    }
    OneLine {
        to: line_to(text, from, e),
        next: e + 1,
    }
}

pub fn next_line(text: &[u8], from: usize) -> Option<NextLine>
    ensures { NextLineIs text.now from result }
{
    let mut at = from;
    let mut passed: usize = 0;
    // from line to line, and so no count of an index: what a line's end is, `line_at` says, and no iterator of bytes
    while at < text.len() {
        let line = line_at(text, at);
        let to = line.to;
        let next = line.next;
        if !super::is_blank(&text[at..to], 0) {
            return Some(NextLine {
                from: at,
                to,
                next,
                passed,
            });
        }
        at = next;
        passed += 1;
    }
    None
}
