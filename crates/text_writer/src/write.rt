// A record's written form at the front of a lent buffer, or the refusal: 14, then 11.
ghost use Rattle.std.specs.Prelude.{◌≡◌, true, ◌+◌, ◌≤◌, length};
ghost use Rattle.soc.specs.Limits.{chains_max, tests_max};
ghost use Rattle.soc.specs.Rules.{good_soc};
ghost use Rattle.fields.specs.WrittenLines.{written_lines};
ghost use Rattle.text_writer.specs.WrittenSoc.{test_lines, module_lines_of, module_lines_from, written_soc, write_answer, write_leaves, Countable};
ghost use Rattle.buffer.specs.Puts.{Put};

use super::write_lines::{
    put_head, put_level_line, put_position_line, put_test_line, put_tests_line,
};
use soc::{Module, Soc, TEXT_MAX, Test};
use units::{Fault, Refusal};

// The lines of a module's tests.
fn put_tests(buf: &mut [u8], at: usize, m: u64, tests: &[Test], power: bool) -> usize
    requires { at + length (written_lines (test_lines power m 1 tests.now)) ≤ length buf.old }
    ensures { Put (written_lines (test_lines power m 1 tests.now)) at buf.old buf.new result }
{
    let mut e = at;
    for (i, t) in tests.iter().enumerate() {
        e = put_test_line(&mut *buf, e, m, i as u64 + 1, *t, power);
    }
    e
}

fn put_module(buf: &mut [u8], at: usize, m: u64, d: Module, power: bool, xy: bool) -> usize
    requires { (d.chain_count ≤ chains_max) × (d.test_count ≤ tests_max) × (at + length (written_lines (module_lines_of power xy m d)) ≤ length buf.old) }
    ensures { Put (written_lines (module_lines_of power xy m d)) at buf.old buf.new result }
{
    let a = put_level_line(&mut *buf, at, m, d);
    let b = put_position_line(&mut *buf, a, m, d, xy);
    let c = put_tests_line(&mut *buf, b, m, d);
    put_tests(&mut *buf, c, m, &d.tests[..d.test_count], power)
}

// The lines of the modules.
fn put_modules(buf: &mut [u8], at: usize, modules: &[Module], power: bool, xy: bool) -> usize
    requires { Countable modules.now × (at + length (written_lines (module_lines_from power xy 0 modules.now)) ≤ length buf.old) }
    ensures { Put (written_lines (module_lines_from power xy 0 modules.now)) at buf.old buf.new result }
{
    let mut e = at;
    for (m, d) in modules.iter().enumerate() {
        e = put_module(&mut *buf, e, m as u64, *d, power, xy);
    }
    e
}

// The written form of a good record.
fn put_soc(buf: &mut [u8], s: Soc) -> usize
    requires { (good_soc s ≡ true) × (length (written_soc s) ≤ length buf.old) }
    ensures { Put (written_soc s) 0 buf.old buf.new result }
{
    let a = put_head(&mut *buf, 0, s);
    put_modules(&mut *buf, a, &s.modules[..s.module_count], s.power, s.xy)
}

pub fn write_soc(s: Soc, buf: &mut [u8]) -> Result<usize, Refusal>
    ensures { (result ≡ write_answer s buf.old) × (buf.new ≡ write_leaves s buf.old) }
{
    if !soc::is_good(s) {
        return Err(Refusal::at(Fault::BadSoc, 0));
    }
    let mut form = [0u8; TEXT_MAX];
    let n = put_soc(&mut form, s);
    buffer::write(&mut *buf, &form[..n])
}
