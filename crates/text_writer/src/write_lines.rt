// The lines of a record put into a buffer, each with its figures, single spaces and LF.
ghost use Rattle.std.specs.Prelude.{◌+◌, ◌≤◌, cond, [], ◌∷◌, length};
ghost use Rattle.soc.specs.Limits.{chains_max};
ghost use Rattle.text_lines.specs.LineFields.{name_fields, total_fields, options_fields, level_fields, tests_fields, power_fields, test_fields};
ghost use Rattle.fields.specs.Names.{name_max};
ghost use Rattle.fields.specs.WrittenLines.{written_lines};
ghost use Rattle.text_writer.specs.WrittenSoc.{position_lines, spaced_lengths, power_end};
ghost use Rattle.buffer.specs.Puts.{Put};

use super::put::{put_flag, put_given};
use soc::{Module, Soc, Test};
use units::FlipFlops;

// `SocName` name, `TotalModules` n, `Options Power` 0/1 `XY` 0/1.
pub(crate) fn put_head(buf: &mut [u8], at: usize, s: Soc) -> usize
    requires { (s.name_len ≤ name_max) × (at + length (written_lines (name_fields s ∷ total_fields s ∷ options_fields s ∷ [])) ≤ length buf.old) }
    ensures { Put (written_lines (name_fields s ∷ total_fields s ∷ options_fields s ∷ [])) at buf.old buf.new result }
{
    let n = s.name_len;
    let name = s.name;
    let a = buffer::put_bytes(&mut *buf, at, b"SocName ");
    let b = buffer::put_bytes(&mut *buf, a, &name[..n]);
    let c = fields::put_key(&mut *buf, b, b"\nTotalModules ", s.module_count as u64);
    let d = put_flag(&mut *buf, c, b"\nOptions Power ", s.power);
    let e = put_flag(&mut *buf, d, b" XY ", s.xy);
    buffer::put_bytes(&mut *buf, e, b"\n")
}

// Lengths, each behind a space.
fn put_lengths(buf: &mut [u8], at: usize, lengths: &[FlipFlops]) -> usize
    requires { at + length (spaced_lengths lengths.now) ≤ length buf.old }
    ensures { Put (spaced_lengths lengths.now) at buf.old buf.new result }
{
    let mut e = at;
    for i in 0..lengths.len() {
        e = fields::put_key(&mut *buf, e, b" ", u64::from(lengths[i].0));
    }
    e
}

pub(crate) fn put_level_line(buf: &mut [u8], at: usize, m: u64, d: Module) -> usize
    requires { (d.chain_count ≤ chains_max) × (at + length (written_lines (level_fields m d ∷ [])) ≤ length buf.old) }
    ensures { Put (written_lines (level_fields m d ∷ [])) at buf.old buf.new result }
{
    let a = fields::put_key(&mut *buf, at, b"Module ", m);
    let b = fields::put_key(&mut *buf, a, b" Level ", u64::from(d.level));
    let c = fields::put_key(&mut *buf, b, b" Inputs ", u64::from(d.inputs));
    let e = fields::put_key(&mut *buf, c, b" Outputs ", u64::from(d.outputs));
    let f = fields::put_key(&mut *buf, e, b" Bidirs ", u64::from(d.bidirs));
    let g = fields::put_key(&mut *buf, f, b" ScanChains ", d.chain_count as u64);
    let h = buffer::put_bytes(&mut *buf, g, b" :");
    let i = put_lengths(&mut *buf, h, &d.chains[..d.chain_count]);
    buffer::put_bytes(&mut *buf, i, b"\n")
}

// With XY 1, `Module` m `X` x `Y` y.
pub(crate) fn put_position_line(buf: &mut [u8], at: usize, m: u64, d: Module, xy: bool) -> usize
    requires { at + length (written_lines (position_lines xy m d)) ≤ length buf.old }
    ensures { Put (written_lines (position_lines xy m d)) at buf.old buf.new result }
{
    if !xy {
        return at;
    }
    let a = fields::put_key(&mut *buf, at, b"Module ", m);
    let b = put_given(&mut *buf, a, b" X ", d.x);
    let c = put_given(&mut *buf, b, b" Y ", d.y);
    buffer::put_bytes(&mut *buf, c, b"\n")
}

// `Module` m `TotalTests` t.
pub(crate) fn put_tests_line(buf: &mut [u8], at: usize, m: u64, d: Module) -> usize
    requires { at + length (written_lines (tests_fields m d ∷ [])) ≤ length buf.old }
    ensures { Put (written_lines (tests_fields m d ∷ [])) at buf.old buf.new result }
{
    let a = fields::put_key(&mut *buf, at, b"Module ", m);
    let b = fields::put_key(&mut *buf, a, b" TotalTests ", d.test_count as u64);
    buffer::put_bytes(&mut *buf, b, b"\n")
}

// With Power 1, `Power` w; and the line's end.
fn put_power(buf: &mut [u8], at: usize, t: Test, power: bool) -> usize
    requires { at + length (power_end power t) ≤ length buf.old }
    ensures { Put (power_end power t) at buf.old buf.new result }
{
    if !power {
        return buffer::put_bytes(&mut *buf, at, b"\n");
    }
    let e = put_given(&mut *buf, at, b" Power ", t.power);
    buffer::put_bytes(&mut *buf, e, b"\n")
}

// The line of test i.
pub(crate) fn put_test_line(
    buf: &mut [u8],
    at: usize,
    m: u64,
    i: u64,
    t: Test,
    power: bool,
) -> usize
    requires { at + length (written_lines (test_fields m i t (cond power (power_fields t) []) ∷ [])) ≤ length buf.old }
    ensures { Put (written_lines (test_fields m i t (cond power (power_fields t) []) ∷ [])) at buf.old buf.new result }
{
    let a = fields::put_key(&mut *buf, at, b"Module ", m);
    let b = fields::put_key(&mut *buf, a, b" Test ", i);
    let c = put_flag(&mut *buf, b, b" ScanUse ", t.scan_use);
    let d = put_flag(&mut *buf, c, b" TamUse ", t.tam_use);
    let e = fields::put_key(&mut *buf, d, b" Patterns ", u64::from(t.patterns));
    put_power(&mut *buf, e, t, power)
}
