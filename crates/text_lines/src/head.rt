// The first three lines of a SOC text: its name, how many modules it has, its options.
ghost use Rattle.std.specs.Prelude.{◌≡◌, ◌≤◌, ◌∷◌, length, drop};
ghost use Rattle.fields.specs.Fields.{fields_of, part};
ghost use Rattle.text_lines.specs.Parts.{whole};
ghost use Rattle.text_lines.specs.Kinds.{name_part, key_name, name_line, total_line, options_part, options_line};

use super::part::{key_flag, line_end};
use fields::NAME_MAX;
use units::Fault;

// A name at the front of its places, as the record has it.
#[derive(Clone, Copy)]
pub struct Name {
    pub len: usize,
    pub bytes: [u8; NAME_MAX],
}

#[derive(Clone, Copy)]
pub struct Options {
    pub power: bool,
    pub xy: bool,
}

// A line whose field from a to e is due to be a name.
fn name_at(l: &[u8], a: usize, e: usize) -> Result<Name, Fault>
    requires { (a ≤ e) × (e ≤ length l.now) }
    ensures { result ≡ whole name_part (part l.now a e ∷ fields_of (drop e l.now)) }
{
    if !fields::is_name(&l[a..e]) {
        return Err(Fault::WrongForm);
    }
    line_end(l, e)?;
    let mut bytes = [0u8; NAME_MAX];
    bytes[..e - a].copy_from_slice(&l[a..e]);
    Ok(Name { len: e - a, bytes })
}

// The keyword w, and then a name.
pub fn key_name(l: &[u8], w: &[u8]) -> Result<Name, Fault>
    ensures { result ≡ whole (key_name w.now) (fields_of l.now) }
{
    let at = fields::past_word(l, 0, w)?;
    match fields::next_field(l, at) {
        Some((a, e)) => name_at(l, a, e),
        None => Err(Fault::WrongForm),
    }
}

// `SocName` name.
#[tactic(auto, unfolding(crate::specs::Kinds::name_line))]
pub fn name_line(l: &[u8]) -> Result<Name, Fault>
    ensures { result ≡ whole name_line (fields_of l.now) }
{
    key_name(l, b"SocName")
}

// `TotalModules` n.
pub fn total_line(l: &[u8]) -> Result<usize, Fault>
    ensures { result ≡ whole total_line (fields_of l.now) }
{
    let (n, e) = fields::key_figure(l, 0, b"TotalModules", 1, soc::MODULES_MAX as u32)?;
    line_end(l, e)?;
    Ok(n as usize)
}

// The options from a place on, to the line's end.
fn options_at(l: &[u8], at: usize) -> Result<Options, Fault>
    ensures { result ≡ whole options_part (fields_of (drop at l.now)) }
{
    let (power, e1) = key_flag(l, at, b"Power")?;
    let (xy, e2) = key_flag(l, e1, b"XY")?;
    line_end(l, e2)?;
    Ok(Options { power, xy })
}

// `Options Power` 0/1 `XY` 0/1.
pub fn options_line(l: &[u8]) -> Result<Options, Fault>
    ensures { result ≡ whole options_line (fields_of l.now) }
{
    let e = fields::past_word(l, 0, b"Options")?;
    options_at(l, e)
}
