// The line of one test of a module.
ghost use Rattle.std.specs.Prelude.{◌≡◌, drop};
ghost use Rattle.fields.specs.Fields.{fields_of};
ghost use Rattle.fields.specs.Readers.{past_is};
ghost use Rattle.text_lines.specs.Parts.{part_is, whole};
ghost use Rattle.text_lines.specs.Kinds.{test_due, uses, power_part, patterns_part, test_line};

use super::part::{key_due, key_flag, key_given, line_end};
use soc::{NOT_GIVEN, PATTERNS_MAX, POWER_MAX, Test};
use units::Fault;

#[derive(Clone, Copy)]
pub struct Uses {
    pub scan: bool,
    pub tam: bool,
}

// `Module` m `Test` i.
fn test_due(l: &[u8], m: u32, i: u32) -> Result<usize, Fault>
    ensures { past_is l.now result ≡ test_due m i (fields_of l.now) }
{
    let e = key_due(l, 0, b"Module", m)?;
    key_due(l, e, b"Test", i)
}

// `ScanUse` 0/1 `TamUse` 0/1 of a test of module m.
fn uses_at(l: &[u8], at: usize, m: u32) -> Result<(Uses, usize), Fault>
    ensures { part_is l.now result ≡ uses m (fields_of (drop at l.now)) }
{
    let (scan, e1) = key_flag(l, at, b"ScanUse")?;
    let (tam, e2) = key_flag(l, e1, b"TamUse")?;
    if !soc::keeps_pins_rule(m as usize, tam) {
        return Err(Fault::PlannedPins);
    }
    Ok((Uses { scan, tam }, e2))
}

// With Power 1, `Power` w where a field is left.
fn power_at(l: &[u8], at: usize, power: bool) -> Result<(i32, usize), Fault>
    ensures { part_is l.now result ≡ power_part power (fields_of (drop at l.now)) }
{
    if !power || fields::is_blank(l, at) {
        return Ok((NOT_GIVEN, at));
    }
    key_given(l, at, b"Power", POWER_MAX as u32)
}

// `Patterns` p and what may follow, to the line's end.
fn patterns_to_end(l: &[u8], at: usize, power: bool, u: Uses) -> Result<Test, Fault>
    ensures { result ≡ whole (patterns_part power u) (fields_of (drop at l.now)) }
{
    let (p, e1) = fields::key_figure(l, at, b"Patterns", 1, PATTERNS_MAX)?;
    let (w, e2) = power_at(l, e1, power)?;
    line_end(l, e2)?;
    Ok(Test {
        scan_use: u.scan,
        tam_use: u.tam,
        patterns: p as u32,
        power: w,
    })
}

// The line of test i of module m.
pub fn test_line(l: &[u8], m: u32, i: u32, power: bool) -> Result<Test, Fault>
    ensures { result ≡ whole (test_line m i power) (fields_of l.now) }
{
    let e1 = test_due(l, m, i)?;
    let (u, e2) = uses_at(l, e1, m)?;
    patterns_to_end(l, e2, power, u)
}
