// The lines that only an overlay has (document 02, item 3): the first one, and the first one of a block.
ghost use Rattle.std.specs.Prelude.{◌≡◌, drop};
ghost use Rattle.fields.specs.Fields.{fields_of};
ghost use Rattle.fields.specs.Readers.{figure_is};
ghost use Rattle.text_lines.specs.Parts.{whole};
ghost use Rattle.text_lines.specs.Kinds.{overlay_line, block_number, block_shape, block_line};
ghost use Rattle.overlay.specs.Steps.{start_said};

use soc::{LEVEL_MAX, MODULES_MAX};
use text_lines::{Name, Shape};
use units::Fault;

// The first line of a block: its module's number, and the rest of it.
#[derive(Clone, Copy)]
pub struct BlockLine {
    pub number: u32,
    pub shape: Shape,
}

// `Overlay` name.
#[tactic(auto, unfolding(text_lines::specs::Kinds::overlay_line))]
pub(crate) fn overlay_line(l: &[u8]) -> Result<Name, Fault>
    ensures { result ≡ whole overlay_line (fields_of l.now) }
{
    text_lines::key_name(l, b"Overlay")
}

// The number of a block of an overlay, from low on.
fn block_number(l: &[u8], low: u32) -> Result<(u64, usize), Fault>
    ensures { figure_is l.now result ≡ block_number low (fields_of l.now) }
{
    let (m, e) = fields::key_figure(l, 0, b"Module", 0, MODULES_MAX as u32 - 1)?;
    if u64::from(low) <= m {
        Ok((m, e))
    } else {
        Err(Fault::BrokenRule)
    }
}

// The first line of a block behind its number, to the line's end: no level rule is tested.
fn block_shape(l: &[u8], at: usize) -> Result<Shape, Fault>
    ensures { result ≡ whole block_shape (fields_of (drop at l.now)) }
{
    let (v, e) = fields::key_figure(l, at, b"Level", 0, LEVEL_MAX)?;
    text_lines::shape_to_end(l, e, v as u32)
}

// The first line of a block with a number from low on.
pub(crate) fn block_line(l: &[u8], low: u32) -> Result<BlockLine, Fault>
    ensures { start_said result ≡ whole (block_line low) (fields_of l.now) }
{
    let (m, at) = block_number(l, low)?;
    let shape = block_shape(l, at)?;
    Ok(BlockLine {
        number: m as u32,
        shape,
    })
}
