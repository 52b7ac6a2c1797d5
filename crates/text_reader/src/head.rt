// The first three lines of a text.
ghost use Rattle.text_lines.specs.Kinds.{name_line, total_line, options_line};
ghost use Rattle.text_reader.specs.Lines.{line};
ghost use Rattle.text_line_reader.specs.Due.{Inside, lines_at};
ghost use Rattle.text_reader.specs.Steps.{StepMeans};

use super::step::{due, taken};
use text_line_reader::Place;
use text_lines::{Name, Options};
use units::Refusal;

pub(crate) fn name_step(text: &[u8], p: Place) -> Result<(Name, Place), Refusal>
    requires { Inside text.now p }
    ensures { StepMeans text.now result (line name_line (lines_at text.now p)) }
{
    let l = due(text, p)?;
    taken(text_lines::name_line(&text[l.from..l.to]), l)
}

pub(crate) fn total_step(text: &[u8], p: Place) -> Result<(usize, Place), Refusal>
    requires { Inside text.now p }
    ensures { StepMeans text.now result (line total_line (lines_at text.now p)) }
{
    let l = due(text, p)?;
    taken(text_lines::total_line(&text[l.from..l.to]), l)
}

pub fn options_step(text: &[u8], p: Place) -> Result<(Options, Place), Refusal>
    requires { Inside text.now p }
    ensures { StepMeans text.now result (line options_line (lines_at text.now p)) }
{
    let l = due(text, p)?;
    taken(text_lines::options_line(&text[l.from..l.to]), l)
}
