// A module's time and wires (document 01, "The wrapper rule"; document 02, item 5): the least figure at any width up to the bus's, and the
// smallest such width.
ghost use Rattle.std.specs.Prelude.{◌≡◌, true, false, ◌≤◌, ◌<◌, IfSome};
ghost use Rattle.units.specs.Places.{any_of};
ghost use Rattle.soc.specs.Limits.{patterns_max};
ghost use Rattle.soc.specs.Record.{tests_of};
ghost use Rattle.wrapper_fit.specs.Maxima.{width_max, capture_max};
ghost use Rattle.wrapper_scans.specs.Held.{Measured};
ghost use Rattle.wrapper_scans.specs.Scans.{Short, Kept};
ghost use Rattle.wrapper_times.specs.Times.{figure};
ghost use Rattle.wrapper_times.specs.TimeAnswers.{times_of};
ghost use Rattle.wrapper_times.specs.Sums.{planned_with, sum_scans, planned_cycles, needed, scan_if, plain_of};

use soc::{Module, Test};
use units::{Cycles, Wires};
use wrapper_fit::WIDTH_PLACES;
use wrapper_scans::{ChainLengths, Scan, cycles_of, lengths_of, scan_at};

// A module's times and wires at the widths from 1 on: place i is for width i + 1.
#[derive(Clone, Copy)]
pub struct Times {
    pub cycles: [Cycles; WIDTH_PLACES],
    pub wires: [Wires; WIDTH_PLACES],
}

// Whether a test with TamUse 1 has this ScanUse.
#[tactic(auto, unfolding(units::specs::Places::any_of))]
fn is_planned_with(d: Module, scan: bool) -> bool
    requires { Kept d }
    ensures { result ≡ any_of (planned_with scan) (tests_of d) }
{
    d.tests[..d.test_count]
        .iter()
        .any(|t| t.tam_use && t.scan_use == scan)
}

// A test's cycles where the scan lengths with chains and without are known; 0 with TamUse 0.
#[tactic(auto, unfolding(crate::specs::Sums::planned_cycles))]
fn planned_cycles(t: Test, with: Scan, without: Scan, capture: u32) -> u64
    requires { Short with × Short without × (t.patterns ≤ patterns_max) × (capture ≤ capture_max) }
    ensures { result ≡ planned_cycles capture with without t }
{
    match (t.tam_use, t.scan_use) {
        (true, true) => cycles_of(with, t.patterns, capture),
        (true, false) => cycles_of(without, t.patterns, capture),
        (false, _) => 0,
    }
}

fn sum_of(d: Module, with: Scan, without: Scan, capture: u32) -> u64
    requires { Kept d × Short with × Short without × (capture ≤ capture_max) }
    ensures { result ≡ sum_scans capture with without (tests_of d) }
{
    let mut sum: u64 = 0;
    for t in &d.tests[..d.test_count] {
        sum += planned_cycles(*t, with, without, capture);
    }
    sum
}

// The lengths of the chains that tests with TamUse 1 and this ScanUse use, where there are such tests.
fn needed(d: Module, scan: bool) -> Option<ChainLengths>
    requires { Kept d }
    ensures { result ≡ needed d scan }
{
    if is_planned_with(d, scan) {
        Some(lengths_of(d, scan))
    } else {
        None
    }
}

// The scan lengths, where they are needed.
#[tactic(auto, unfolding(crate::specs::Sums::scan_if))]
fn scan_if(d: Module, c: Option<ChainLengths>, k: usize) -> Scan
    requires { (0 < k) × (k ≤ width_max) × IfSome c Measured }
    ensures { result ≡ scan_if d c k }
{
    match c {
        Some(c) => scan_at(d, c, k),
        None => Scan { si: 0, so: 0 },
    }
}

// What the figures of a module at all widths have in common: its chains' lengths in order, for tests with chains and for those without.
#[derive(Clone, Copy)]
pub struct Plain {
    pub with: Option<ChainLengths>,
    pub without: Option<ChainLengths>,
}

fn plain_of(d: Module) -> Plain
    requires { Kept d }
    ensures { result ≡ plain_of d }
{
    Plain {
        with: needed(d, true),
        without: needed(d, false),
    }
}

fn figure_at(d: Module, p: Plain, k: usize, capture: u32) -> u64
    requires { Kept d × (p ≡ plain_of d) × (0 < k) × (k ≤ width_max) × (capture ≤ capture_max) }
    ensures { result ≡ figure capture d k }
{
    let with = scan_if(d, p.with, k);
    let without = scan_if(d, p.without, k);
    sum_of(d, with, without, capture)
}

// The times and wires at the widths 1 to w, each figure computed once.
pub(crate) fn times_of(d: Module, w: usize, capture: u32) -> Times
    requires { Kept d × (0 < w) × (w ≤ width_max) × (capture ≤ capture_max) }
    ensures { result ≡ times_of capture d w }
{
    let p = plain_of(d);
    let mut cycles = [Cycles(0); WIDTH_PLACES];
    let mut wires = [Wires(0); WIDTH_PLACES];
    let mut best = figure_at(d, p, 1, capture);
    let mut at: u32 = 1;
    cycles[0] = Cycles(best);
    wires[0] = Wires(at);
    for u in 1..w {
        let f = figure_at(d, p, u + 1, capture);
        if f < best {
            best = f;
            at = u as u32 + 1;
        }
        cycles[u] = Cycles(best);
        wires[u] = Wires(at);
    }
    Times { cycles, wires }
}
