// A wrapper's layout for one test of a module at one width: bidirectional cells right after the internal chains (document 02, item 2),
// then input cells and output cells, each from the lengths with these; and what the test takes with that layout (document 02, item 8).
ghost use Rattle.std.specs.Prelude.{◌≡◌, map, ◌++◌, ℕ, ◌+◌, ◌≤◌, ◌<◌, take, drop, get_or};
ghost use Rattle.soc.specs.Limits.{patterns_max};
ghost use Rattle.soc.specs.Record.{flip_flops};
ghost use Rattle.wrapper_fit.specs.Fit.{longest, with_cells};
ghost use Rattle.wrapper_fit.specs.Maxima.{width_max, capture_max};
ghost use Rattle.wrapper_scans.specs.Scans.{Kept};
ghost use Rattle.wrapper_layout.specs.LayoutAnswers.{gained, layout_of, layout_answer};

use super::asked::asked_test;
use super::places::{add_cells, thread_chains};
use soc::{CHAINS_MAX, Module, Soc, Test};
use units::{CaptureCycles, Cycles, FlipFlops, Refusal, Wires};
use wrapper_fit::WIDTH_PLACES;
use wrapper_scans::{asked_module, cycles_of, lengths_of, order_of, scan_at};

// For each wrapper chain its flip-flops, input cells, output cells and bidirectional cells; for each internal chain its wrapper chain from
// 1. Entries past the width or past the chains, and those of chains that the test does not use, are 0. Then the longest scan-in and
// scan-out of that layout, and the test's cycles with them.
#[derive(Clone, Copy)]
pub struct WrapperLayout {
    pub flip_flops: [FlipFlops; WIDTH_PLACES],
    pub input_cells: [u64; WIDTH_PLACES],
    pub output_cells: [u64; WIDTH_PLACES],
    pub bidir_cells: [u64; WIDTH_PLACES],
    pub chain_of: [usize; CHAINS_MAX],
    pub si: u64,
    pub so: u64,
    pub cycles: Cycles,
}

// The lengths with n cells in their places in the first k wrapper chains.
fn with_cells(mut lengths: [u64; WIDTH_PLACES], k: usize, n: u64) -> [u64; WIDTH_PLACES]
    requires { (0 < k) × (k ≤ width_max) × (longest (take k lengths) + n < 18446744073709551616) }
    ensures { result ≡ with_cells n (take k lengths) ++ drop k lengths }
{
    add_cells(&mut lengths[..k], n);
    lengths
}

// By how much each length grew.
fn gained_by(before: [u64; WIDTH_PLACES], after: [u64; WIDTH_PLACES]) -> [u64; WIDTH_PLACES]
    ensures { result ≡ gained before after }
{
    let mut cells = [0u64; WIDTH_PLACES];
    for i in 0..WIDTH_PLACES {
        cells[i] = after[i].saturating_sub(before[i]);
    }
    cells
}

fn flip_flops_of(lengths: [u64; WIDTH_PLACES]) -> [FlipFlops; WIDTH_PLACES]
    requires { (i : ℕ) → get_or lengths i 0 < 4294967296 }
    ensures { result ≡ map flip_flops lengths }
{
    let mut f = [FlipFlops(0); WIDTH_PLACES];
    for (i, n) in lengths.iter().enumerate() {
        f[i] = FlipFlops(*n as u32);
    }
    f
}

// The scan lengths come from the sum (document 02, item 4), so no cell is counted again.
fn layout_of(d: Module, t: Test, k: usize, capture: u32) -> WrapperLayout
    requires { Kept d × (t.patterns ≤ patterns_max) × (0 < k) × (k ≤ width_max) × (capture ≤ capture_max) }
    ensures { result ≡ layout_of capture d k t }
{
    let threads = thread_chains(order_of(d, t.scan_use), k);
    let lengths = threads.lengths;
    let chain_of = threads.places;
    let with_bidirs = with_cells(lengths, k, d.bidirs as u64);
    let scan_in = with_cells(with_bidirs, k, d.inputs as u64);
    let scan_out = with_cells(with_bidirs, k, d.outputs as u64);
    let scan = scan_at(d, lengths_of(d, t.scan_use), k);
    let cycles = cycles_of(scan, t.patterns, capture);
    WrapperLayout {
        flip_flops: flip_flops_of(lengths),
        input_cells: gained_by(with_bidirs, scan_in),
        output_cells: gained_by(with_bidirs, scan_out),
        bidir_cells: gained_by(lengths, with_bidirs),
        chain_of,
        si: scan.si,
        so: scan.so,
        cycles: Cycles(cycles),
    }
}

// The layout of one test of a module at a width, which is used as it is, with its longest scan-in and scan-out and the test's cycles.
pub fn layout(
    s: Soc,
    module: u32,
    test: u32,
    width: Wires,
    capture: CaptureCycles,
) -> Result<WrapperLayout, Refusal>
    ensures { result ≡ layout_answer s «module» test width.0 capture.0 }
{
    let d = asked_module(s, module, width, capture)?;
    let t = asked_test(d, test)?;
    Ok(layout_of(d, t, width.0 as usize, capture.0))
}
