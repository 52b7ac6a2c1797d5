// The lines of a module of a pair, as they stand in the one text or the other.
ghost use Rattle.std.specs.Prelude.{◌≡◌, false, get_or};
ghost use Rattle.pair.specs.Shown.{lines_shown, module_lines};
ghost use Rattle.pair.specs.PairMarks.{shown_between};

use super::read::{Meant, PairRefusal, read_pair_marked};
use module_part::{Part, trimmed_part};
use soc::MODULES_MAX;
use text_reader::Marks;
use units::{Fault, Refusal};

// Where the lines of a module stand: in the overlay or in the base, from where to where.
#[derive(Clone, Copy)]
pub struct Shown {
    pub over: bool,
    pub part: Part,
}

// Whether module m is the overlay's.
fn is_over(has: [bool; MODULES_MAX], m: usize) -> bool
    ensures { result ≡ get_or has m false }
{
    m < MODULES_MAX && has[m]
}

// The part between the marks of a module, of the overlay or of the base.
#[tactic(auto, unfolding(crate::specs::PairMarks::shown_between))]
fn shown_between(base: &[u8], b: Marks, overlay: &[u8], o: Marks, over: bool) -> Shown
    ensures { result ≡ shown_between base.now b overlay.now o over }
{
    let part = if over {
        trimmed_part(overlay, o)
    } else {
        trimmed_part(base, b)
    };
    Shown { over, part }
}

pub fn lines_shown(base: &[u8], overlay: &[u8], m: u32) -> Result<Shown, PairRefusal>
    ensures { result ≡ lines_shown base.now overlay.now m }
{
    let read = read_pair_marked(base, overlay, m)?;
    if m as usize >= read.pair.soc.module_count {
        return Err(PairRefusal {
            refusal: Refusal::at(Fault::NotThere, 0),
            meant: Meant::Neither,
        });
    }
    let over = is_over(read.pair.has, m as usize);
    Ok(shown_between(base, read.base, overlay, read.over, over))
}

// The lines of module m: a part of the overlay or of the base.
pub fn module_lines<'a>(base: &'a [u8], overlay: &'a [u8], m: u32) -> &'a [u8]
    ensures { result.now ≡ module_lines base.now overlay.now m }
{
    match lines_shown(base, overlay, m) {
        Ok(shown) => {
            let text = if shown.over { overlay } else { base };
            &text[shown.part.from..shown.part.to]
        }
        Err(_) => &base[..0],
    }
}
