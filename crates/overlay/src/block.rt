// The blocks of an overlay.
ghost use Rattle.text_line_reader.specs.Due.{Inside, lines_at};
ghost use Rattle.text_reader.specs.Steps.{StepMeans};
ghost use Rattle.overlay.specs.Overlay.{block};
ghost use Rattle.overlay.specs.OverlayMarks.{BlocksMean};

use super::line::block_line;
use soc::{MODULES_MAX, Module};
use text_line_reader::{Place, due_line};
use text_lines::Options;
use text_reader::{Marks, due, marked, module_rest, taken};
use units::Refusal;

// A block: the number of its module, and what its lines say.
#[derive(Clone, Copy)]
pub struct Block {
    pub number: u32,
    pub says: Module,
}

// Which modules an overlay has, and what it says of them: module m at place m; the other places hold a spare module.
#[derive(Clone, Copy)]
pub struct Places {
    pub has: [bool; MODULES_MAX],
    pub modules: [Module; MODULES_MAX],
}

// The same with the marks of one module.
#[derive(Clone, Copy)]
pub struct PlacesMarked {
    pub places: Places,
    pub marks: Marks,
}

// The lines of a block with a number from low on.
fn one_block(text: &[u8], p: Place, low: u32, o: Options) -> Result<(Block, Place), Refusal>
    requires { Inside text.now p }
    ensures { StepMeans text.now result (block o low (lines_at text.now p)) }
{
    let l = due(text, p)?;
    let (line, q) = taken(block_line(&text[l.from..l.to], low), l)?;
    let (says, next) = module_rest(text, q, line.number, line.shape, o)?;
    let block = Block {
        number: line.number,
        says,
    };
    Ok((block, next))
}

// The blocks to the text's end, each at the place of its module's number, and the marks of module m. Numbers ascend, so there are no more
// than the places and one that is refused.
pub(crate) fn blocks_to_end(
    text: &[u8],
    p: Place,
    o: Options,
    m: u32,
) -> Result<PlacesMarked, Refusal>
    requires { Inside text.now p }
    ensures { BlocksMean text.now p o m result }
{
    let mut has = [false; MODULES_MAX];
    let mut modules = [soc::no_module(); MODULES_MAX];
    let mut marks = Marks { from: 0, to: 0 };
    let mut place = p;
    let mut low: u32 = 0;
    for _ in 0..=MODULES_MAX {
        let (block, next) = one_block(text, place, low, o)?;
        has[block.number as usize] = true;
        modules[block.number as usize] = block.says;
        marks = marked(marks, m, block.number, place.at, next.at);
        low = block.number + 1;
        place = next;
        if due_line(text, place).is_none() {
            break;
        }
    }
    let places = Places { has, modules };
    Ok(PlacesMarked { places, marks })
}
