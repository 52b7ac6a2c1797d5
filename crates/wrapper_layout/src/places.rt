// Elements in their places (document 01, "The wrapper rule"; document 02, item 2): cells one after another, and the internal chains in k
// wrapper chains.
ghost use Rattle.std.specs.Prelude.{◌≡◌, ◌+◌, ◌≤◌, ◌<◌, length};
ghost use Rattle.wrapper_fit.specs.Maxima.{width_max};
ghost use Rattle.wrapper_fit.specs.Fit.{longest, goes, placed, with_cells};
ghost use Rattle.wrapper_scans.specs.Chains.{thread, empty};
ghost use Rattle.wrapper_scans.specs.Held.{front, Threadable};
ghost use Rattle.wrapper_layout.specs.Held.{threading_of};

use soc::CHAINS_MAX;
use wrapper_fit::{WIDTH_PLACES, goes_to, longest_of};
use wrapper_scans::Order;

// The lengths of the wrapper chains, and for each internal chain its wrapper chain from 1, or 0.
#[derive(Clone, Copy)]
pub struct Threading {
    pub lengths: [u64; WIDTH_PLACES],
    pub places: [usize; CHAINS_MAX],
}

// Puts an element of length n in its place, and answers that place.
fn place(l: &mut [u64], n: u64) -> usize
    requires { (0 < length l.old) × (longest l.old + n < 18446744073709551616) }
    ensures { (result ≡ goes n l.old) × (l.new ≡ placed n l.old) }
{
    let m = longest_of(&*l);
    let i = goes_to(&*l, n, m);
    l[i] += n;
    i
}

// Puts n cells in their places, one after another.
pub(crate) fn add_cells(l: &mut [u64], n: u64)
    requires { (0 < length l.old) × (longest l.old + n < 18446744073709551616) }
    ensures { l.new ≡ with_cells n l.old }
{
    for _ in 0..n {
        place(&mut *l, 1);
    }
}

// The chains of an order in k wrapper chains.
pub(crate) fn thread_chains(o: Order, k: usize) -> Threading
    requires { (0 < k) × (k ≤ width_max) × Threadable o }
    ensures { result ≡ threading_of (thread (front o) (empty k)) }
{
    let mut lengths = [0u64; WIDTH_PLACES];
    let mut places = [0usize; CHAINS_MAX];
    for c in &o.chains[..o.count] {
        let at = place(&mut lengths[..k], c.length);
        places[c.number] = at + 1;
    }
    Threading { lengths, places }
}
