// The scan lengths of a module at a width, and a test's time (document 01, "The wrapper rule"; document 02, items 2, 4 and 5).
ghost use Rattle.std.specs.Prelude.{◌≡◌, ◌≤◌, ◌<◌};
ghost use Rattle.soc.specs.Limits.{patterns_max};
ghost use Rattle.wrapper_fit.specs.Maxima.{width_max, capture_max};
ghost use Rattle.wrapper_scans.specs.TestTimes.{test_cycles};
ghost use Rattle.wrapper_scans.specs.Held.{Measured};
ghost use Rattle.wrapper_scans.specs.Scans.{scan_of, Short};

use super::chains::ChainLengths;
use soc::Module;
use wrapper_fit::{longest_after, longest_with};

// The longest scan-in and scan-out of a module at one width, with its chains or without.
#[derive(Clone, Copy)]
pub struct Scan {
    pub si: u64,
    pub so: u64,
}

// No cell is placed: the longest chain and the total, with the chains threaded once, give both.
pub fn scan_at(d: Module, c: ChainLengths, k: usize) -> Scan
    requires { (0 < k) × (k ≤ width_max) × Measured c }
    ensures { result ≡ scan_of d c k }
{
    let m = longest_with(&c.lengths[..c.count], k);
    let k = k as u64;
    let bidirs = u64::from(d.bidirs);
    Scan {
        si: longest_after(m, c.total, u64::from(d.inputs) + bidirs, k),
        so: longest_after(m, c.total, u64::from(d.outputs) + bidirs, k),
    }
}

// (c + max(si, so)) × p + min(si, so), where the capture cycles of all patterns stand apart.
pub fn cycles_of(s: Scan, patterns: u32, capture: u32) -> u64
    requires { Short s × (patterns ≤ patterns_max) × (capture ≤ capture_max) }
    ensures { result ≡ test_cycles capture s.si s.so patterns }
{
    let p = u64::from(patterns);
    let each = u64::from(capture);
    let captured = each * p;
    let longer = s.si.max(s.so);
    let shorter = s.si.min(s.so);
    captured + longer * p + shorter
}
