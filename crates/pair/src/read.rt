// The pair of a SOC text, the base, and an overlay: the combined description, or the first refusal and the text that is meant.
ghost use Rattle.std.specs.Prelude.{◌≡◌};
ghost use Rattle.pair.specs.Pair.{same_head, place_fits, places_fit, fits, laid, combined, joined, read_pair};
ghost use Rattle.pair.specs.PairMarks.{PairReadMarked};

use overlay::{Overlay, read_overlay_marked};
use soc::{MODULES_MAX, Module, Soc};
use text_reader::{Marks, read_soc_marked};
use units::{Fault, Refusal};

// The text that a refusal is about.
#[derive(Clone, Copy, PartialEq, Eq)]
pub enum Meant {
    Base,
    Overlay,
    Neither,
}

// Why a pair is refused, and which of its texts is meant.
#[derive(Clone, Copy, PartialEq, Eq)]
pub struct PairRefusal {
    pub refusal: Refusal,
    pub meant: Meant,
}

// The combined description of a pair, and which of its modules are the overlay's.
#[derive(Clone, Copy)]
pub struct PairRead {
    pub soc: Soc,
    pub has: [bool; MODULES_MAX],
}

// The same with the marks of one module in the base and in the overlay.
#[derive(Clone, Copy)]
pub struct PairMarked {
    pub pair: PairRead,
    pub base: Marks,
    pub over: Marks,
}

// Whether name and options are those of the base.
#[tactic(auto, unfolding(crate::specs::Pair::same_head))]
fn has_same_head(s: &Soc, o: &Overlay) -> bool
    ensures { result ≡ same_head s.now o.now }
{
    s.name_len == o.name_len
        && fields::same_bytes(&s.name, &o.name)
        && s.power == o.power
        && s.xy == o.xy
}

// Whether module m, where the overlay has it, is in a base of n modules, and has its level there.
#[tactic(auto, unfolding(crate::specs::Pair::place_fits))]
fn place_fits(n: usize, m: usize, has: bool, over: Module, base: Module) -> bool
    ensures { result ≡ place_fits n m has over base }
{
    !has || m < n && over.level == base.level
}

fn places_fit(
    n: usize,
    has: &[bool; MODULES_MAX],
    over: &[Module; MODULES_MAX],
    base: &[Module; MODULES_MAX],
) -> bool
    ensures { result ≡ places_fit n 0 has.now over.now base.now }
{
    for m in 0..MODULES_MAX {
        if !place_fits(n, m, has[m], over[m], base[m]) {
            return false;
        }
    }
    true
}

#[tactic(auto, unfolding(crate::specs::Pair::fits))]
fn fits_base(s: &Soc, o: &Overlay) -> bool
    ensures { result ≡ fits s.now o.now }
{
    has_same_head(s, o) && places_fit(s.module_count, &o.has, &o.modules, &s.modules)
}

// A module is the overlay's where it has it, otherwise the base's.
fn laid_over(
    has: &[bool; MODULES_MAX],
    over: &[Module; MODULES_MAX],
    base: &mut [Module; MODULES_MAX],
)
    ensures { base.new ≡ laid has.now over.now base.old }
{
    for m in 0..MODULES_MAX {
        if has[m] {
            base[m] = over[m];
        }
    }
}

#[tactic(auto, unfolding(crate::specs::Pair::combined))]
fn combined_soc(s: &Soc, o: &Overlay) -> Soc
    ensures { result ≡ combined s.now o.now }
{
    let mut soc = *s;
    laid_over(&o.has, &o.modules, &mut soc.modules);
    soc
}

// A refusal of the text that is meant.
fn about(meant: Meant, refusal: Refusal) -> PairRefusal
    ensures { result ≡ record { refusal = refusal; meant = meant } }
{
    PairRefusal { refusal, meant }
}

// A base and an overlay that are both read without a refusal.
#[tactic(auto, unfolding(crate::specs::Pair::joined))]
fn joined_pair(s: &Soc, o: &Overlay) -> Result<PairRead, PairRefusal>
    ensures { result ≡ joined s.now o.now }
{
    if !fits_base(s, o) {
        return Err(about(Meant::Overlay, Refusal::at(Fault::OtherBase, 0)));
    }
    let soc = combined_soc(s, o);
    let has = o.has;
    Ok(PairRead { soc, has })
}

// What a pair says, and the marks of module m in the texts that have it. Each text is read once, the overlay where the base is not refused.
pub(crate) fn read_pair_marked(
    base: &[u8],
    overlay: &[u8],
    m: u32,
) -> Result<PairMarked, PairRefusal>
    ensures { PairReadMarked m base.now overlay.now result }
{
    let of_base = read_soc_marked(base, m);
    let b = match &of_base {
        Ok(b) => b,
        Err(refusal) => return Err(about(Meant::Base, *refusal)),
    };
    let of_overlay = read_overlay_marked(overlay, m);
    let o = match &of_overlay {
        Ok(o) => o,
        Err(refusal) => return Err(about(Meant::Overlay, *refusal)),
    };
    let pair = joined_pair(&b.soc, &o.overlay)?;
    Ok(PairMarked {
        pair,
        base: b.marks,
        over: o.marks,
    })
}

pub fn read_pair(base: &[u8], overlay: &[u8]) -> Result<PairRead, PairRefusal>
    ensures { result ≡ read_pair base.now overlay.now }
{
    let read = read_pair_marked(base, overlay, 0)?;
    Ok(read.pair)
}
