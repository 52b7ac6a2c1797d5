// Where an element goes (document 01, "The wrapper rule"): to the wrapper chain that becomes fullest without passing the longest, else to
// the shortest, ties to the lowest number; and how long the longest is after elements one after another, and after cells with none placed
// (document 02, item 4). Lengths count flip-flops and cells.
ghost use Rattle.std.specs.Prelude.{◌≡◌, ◌+◌, ◌≤◌, ◌<◌, length, replicate};
ghost use Rattle.wrapper_fit.specs.Maxima.{width_max};
ghost use Rattle.wrapper_fit.specs.Fit.{longest, total, goes};
ghost use Rattle.wrapper_fit.specs.Cells.{evened};
ghost use Rattle.wrapper_fit.specs.Elements.{rank, with_chains};

use super::maxima::WIDTH_PLACES;

pub fn longest_of(l: &[u64]) -> u64
    ensures { result ≡ longest l.now }
{
    l.iter().copied().max().unwrap_or(0)
}

// How bad a place a chain of length x is for an element of length n, where m is the longest: what is left up to m, or, behind all that take
// it without passing m, how long it becomes. The less, the better.
#[tactic(auto, unfolding(crate::specs::Elements::rank))]
fn rank(n: u64, m: u64, x: u64) -> u64
    requires { x + n < 18446744073709551616 }
    ensures { result ≡ rank n m x }
{
    let y = x + n;
    if y <= m { m - y } else { y }
}

// The number of the chain to which an element of length n goes, where m is the longest.
pub fn goes_to(l: &[u64], n: u64, m: u64) -> usize
    requires { (m ≡ longest l.now) × (longest l.now + n < 18446744073709551616) }
    ensures { result ≡ goes n l.now }
{
    if l.is_empty() {
        return 0;
    }
    let mut best: usize = 0;
    let mut least = rank(n, m, l[0]);
    for j in 1..l.len() {
        let r = rank(n, m, l[j]);
        if r < least {
            best = j;
            least = r;
        }
    }
    best
}

// The longest of k wrapper chains that start empty, after elements of these lengths were put in their places, one after another. Where
// there are no more elements than chains, an empty chain is always left, so that none passes the longest element.
pub fn longest_with(chains: &[u64], k: usize) -> u64
    requires { (0 < k) × (k ≤ width_max) × (total chains.now < 18446744073709551616) }
    ensures { result ≡ longest (with_chains chains.now (replicate k 0)) }
{
    if chains.len() <= k {
        return longest_of(chains);
    }
    let mut lengths = [0u64; WIDTH_PLACES];
    let mut m: u64 = 0;
    for &n in chains {
        let at = goes_to(&lengths[..k], n, m);
        let x = lengths[at] + n;
        lengths[at] = x;
        m = m.max(x);
    }
    m
}

// The longest of k wrapper chains after n cells, where the longest was m and the total t: m, or an even share, rounded up.
pub fn longest_after(m: u64, t: u64, n: u64, k: u64) -> u64
    requires { (0 < k) × (k ≤ width_max) × (t + n + k < 18446744073709551616) }
    ensures { result ≡ evened m t n k }
{
    let even = (t + n).div_ceil(k);
    m.max(even)
}
