// The part of a text in which the lines of a module stand, from their first field to their last (document 02, item 3): the reader of the
// text has marked a place before them and a place behind them.
#![tactic(auto)]

ghost use Rattle.std.specs.Prelude.{◌≡◌, drop, ◌+◌};
ghost use Rattle.fields.specs.Bytes.{lf_next};
ghost use Rattle.fields.specs.Fields.{gap};
ghost use Rattle.module_part.specs.Trimmed.{of_field, in_field, until_field, last_field, trimmed};

use text_reader::Marks;

// A part of a text: where it begins and where it ends. One that ends at 0 is empty.
#[derive(Clone, Copy)]
pub struct Part {
    pub from: usize,
    pub to: usize,
}

fn is_gap(b: u8) -> bool
    ensures { result ≡ gap b }
{
    b == 32 || b == 9
}

fn is_lf_at(text: &[u8], i: usize) -> bool
    ensures { result ≡ lf_next (drop i text.now) }
{
    i < text.len() && text[i] == 10
}

// Whether a byte is one of a field: neither a space nor a tab, nor of a line's end. The text goes on at the place next.
fn is_of_field(text: &[u8], b: u8, next: usize) -> bool
    ensures { result ≡ of_field b (drop next text.now) }
{
    !(is_gap(b) || b == 10 || b == 13 && is_lf_at(text, next))
}

fn is_field_byte(text: &[u8], i: usize) -> bool
    ensures { result ≡ in_field (drop i text.now) }
{
    i < text.len() && is_of_field(text, text[i], i + 1)
}

// Where the first field at or behind a place begins.
fn field_from(text: &[u8], at: usize) -> usize
    ensures { result ≡ at + until_field (drop at text.now) }
{
    for i in at..text.len() {
        if is_field_byte(text, i) {
            return i;
        }
    }
    at.max(text.len())
}

// Where the last field before a place ends.
fn field_end(text: &[u8], to: usize) -> usize
    ensures { result ≡ last_field to text.now }
{
    for i in (0..to).rev() {
        if is_field_byte(text, i) {
            return i + 1;
        }
    }
    0
}

// The part between two marks, from the first field to the last.
#[tactic(auto, unfolding(crate::specs::Trimmed::trimmed))]
pub fn trimmed_part(text: &[u8], marks: Marks) -> Part
    ensures { result ≡ trimmed text.now marks.from marks.to }
{
    let from = field_from(text, marks.from);
    let to = field_end(text, marks.to);
    Part { from, to }
}
