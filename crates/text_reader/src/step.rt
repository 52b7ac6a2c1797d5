// A step of reading: the line that is due, what is read of it, and the refusal of a text that ends too soon.
ghost use Rattle.std.specs.Prelude.{◌≡◌};
ghost use Rattle.units.specs.Refusals.{refused};
ghost use Rattle.units.specs.declared.Fault.TheVariants.{EarlyEnd};
ghost use Rattle.text_line_reader.specs.Due.{Inside};
ghost use Rattle.text_reader.specs.Steps.{IsDue, taken};

use text_line_reader::{DueLine, Place, due_line};
use units::{Fault, Refusal};

// The text ends while lines are still due.
pub fn missing() -> Refusal
    ensures { result ≡ refused EarlyEnd 0 }
{
    Refusal::at(Fault::EarlyEnd, 0)
}

// The line that is due.
pub fn due(text: &[u8], p: Place) -> Result<DueLine, Refusal>
    requires { Inside text.now p }
    ensures { IsDue text.now p result }
{
    match due_line(text, p) {
        Some(l) => Ok(l),
        None => Err(missing()),
    }
}

// What a line's reader answers, as a step: with the place behind the line, or with its number.
#[tactic(auto, unfolding(crate::specs::Steps::taken))]
pub fn taken<T>(read: Result<T, Fault>, l: DueLine) -> Result<(T, Place), Refusal>
    ensures { result ≡ taken read l }
{
    match read {
        Ok(value) => Ok((value, l.behind)),
        Err(fault) => Err(Refusal::at(fault, l.number)),
    }
}
