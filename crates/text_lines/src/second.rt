// The second line of a module: its position or its number of tests; and, behind a position, the line with its number of tests.
ghost use Rattle.std.specs.Prelude.{◌≡◌, drop};
ghost use Rattle.fields.specs.Fields.{fields_of};
ghost use Rattle.text_lines.specs.Parts.{whole};
ghost use Rattle.text_lines.specs.Kinds.{pair_rule, position_part, total_tests, second_part, second_line, tests_line};

use super::part::{is_next, key_due, key_given, line_end};
use soc::{NOT_GIVEN, POSITION_MAX, TESTS_MAX};
use units::Fault;

#[derive(Clone, Copy)]
pub enum SecondLine {
    Position(i32, i32),
    Tests(usize),
}

// Both not given, or both given.
fn is_pair(x: i32, y: i32) -> bool
    ensures { result ≡ pair_rule x y }
{
    (x == NOT_GIVEN) == (y == NOT_GIVEN)
}

// `X` x `Y` y, to the line's end.
fn position_to_end(l: &[u8], at: usize) -> Result<SecondLine, Fault>
    ensures { result ≡ whole position_part (fields_of (drop at l.now)) }
{
    let (x, e1) = key_given(l, at, b"X", POSITION_MAX as u32)?;
    let (y, e2) = key_given(l, e1, b"Y", POSITION_MAX as u32)?;
    if !is_pair(x, y) {
        return Err(Fault::BrokenRule);
    }
    line_end(l, e2)?;
    Ok(SecondLine::Position(x, y))
}

// `TotalTests` t, to the line's end.
fn tests_to_end(l: &[u8], at: usize) -> Result<usize, Fault>
    ensures { result ≡ whole total_tests (fields_of (drop at l.now)) }
{
    let (t, e) = fields::key_figure(l, at, b"TotalTests", 0, TESTS_MAX as u32)?;
    line_end(l, e)?;
    Ok(t as usize)
}

fn second_to_end(l: &[u8], at: usize, xy: bool) -> Result<SecondLine, Fault>
    ensures { result ≡ whole (second_part xy) (fields_of (drop at l.now)) }
{
    if xy && is_next(l, at, b"X") {
        return position_to_end(l, at);
    }
    let t = tests_to_end(l, at)?;
    Ok(SecondLine::Tests(t))
}

// The second line of module m.
pub fn second_line(l: &[u8], m: u32, xy: bool) -> Result<SecondLine, Fault>
    ensures { result ≡ whole (second_line m xy) (fields_of l.now) }
{
    let e = key_due(l, 0, b"Module", m)?;
    second_to_end(l, e, xy)
}

// The line of module m behind its position.
pub fn tests_line(l: &[u8], m: u32) -> Result<usize, Fault>
    ensures { result ≡ whole (tests_line m) (fields_of l.now) }
{
    let e = key_due(l, 0, b"Module", m)?;
    tests_to_end(l, e)
}
