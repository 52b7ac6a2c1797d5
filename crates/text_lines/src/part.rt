// The parts of a line at a place of it: a keyword with the number that is due, with a 0/1 flag, with a figure that may be -1. An answer is
// what was read and the place behind it, or the fault.
ghost use Rattle.std.specs.Prelude.{◌≡◌, ◌≤◌, drop};
ghost use Rattle.fields.specs.Fields.{fields_of};
ghost use Rattle.fields.specs.Readers.{past_is, give};
ghost use Rattle.text_lines.specs.Parts.{due, key_due, flag, key_flag, or_not_given, key_given, is_next, part_is, whole};

use soc::NOT_GIVEN;
use units::Fault;

// The number n, which is due: below 4,294,967,296.
fn due_at(l: &[u8], at: usize, n: u32) -> Result<usize, Fault>
    ensures { past_is l.now result ≡ due n (fields_of (drop at l.now)) }
{
    let Some((a, e)) = fields::next_field(l, at) else {
        return Err(Fault::WrongForm);
    };
    match fields::number_of(&l[a..e]) {
        None => Err(Fault::WrongFigure),
        Some(v) if v == n as u64 => Ok(e),
        Some(_) => Err(Fault::BrokenRule),
    }
}

pub fn key_due(l: &[u8], at: usize, w: &[u8], n: u32) -> Result<usize, Fault>
    ensures { past_is l.now result ≡ key_due w.now n (fields_of (drop at l.now)) }
{
    let e = fields::past_word(l, at, w)?;
    due_at(l, e, n)
}

fn flag_at(l: &[u8], at: usize) -> Result<(bool, usize), Fault>
    ensures { part_is l.now result ≡ flag (fields_of (drop at l.now)) }
{
    let Some((a, e)) = fields::next_field(l, at) else {
        return Err(Fault::WrongForm);
    };
    let field = &l[a..e];
    if fields::same_bytes(field, b"0") {
        return Ok((false, e));
    }
    if fields::same_bytes(field, b"1") {
        return Ok((true, e));
    }
    Err(Fault::WrongForm)
}

pub(crate) fn key_flag(l: &[u8], at: usize, w: &[u8]) -> Result<(bool, usize), Fault>
    ensures { part_is l.now result ≡ key_flag w.now (fields_of (drop at l.now)) }
{
    let e = fields::past_word(l, at, w)?;
    flag_at(l, e)
}

// A number from 0 to high, or -1.
fn given_at(l: &[u8], at: usize, high: u32) -> Result<(i32, usize), Fault>
    requires { high ≤ 16777215 }
    ensures { part_is l.now result ≡ or_not_given high (fields_of (drop at l.now)) }
{
    let Some((a, e)) = fields::next_field(l, at) else {
        return Err(Fault::WrongForm);
    };
    let field = &l[a..e];
    if fields::same_bytes(field, b"-1") {
        return Ok((NOT_GIVEN, e));
    }
    match fields::number_of(field) {
        Some(v) if v <= high as u64 => Ok((v as i32, e)),
        _ => Err(Fault::WrongFigure),
    }
}

pub(crate) fn key_given(l: &[u8], at: usize, w: &[u8], high: u32) -> Result<(i32, usize), Fault>
    requires { high ≤ 16777215 }
    ensures { part_is l.now result ≡ key_given w.now high (fields_of (drop at l.now)) }
{
    let e = fields::past_word(l, at, w)?;
    given_at(l, e, high)
}

pub(crate) fn is_next(l: &[u8], at: usize, w: &[u8]) -> bool
    ensures { result ≡ is_next w.now (fields_of (drop at l.now)) }
{
    fields::past_word(l, at, w).is_ok()
}

// The line's end: no field is left.
pub(crate) fn line_end(l: &[u8], at: usize) -> Result<(), Fault>
    ensures { result ≡ whole (give tt) (fields_of (drop at l.now)) }
{
    if fields::is_blank(l, at) {
        Ok(())
    } else {
        Err(Fault::WrongForm)
    }
}
