// An overlay text read to what it says, or to its first refusal: 1, then 2 anywhere, then the lines from the top.
ghost use Rattle.std.specs.Prelude.{◌≡◌};
ghost use Rattle.text_lines.specs.Kinds.{overlay_line};
ghost use Rattle.text_line_reader.specs.Due.{Inside, lines_at, place_at};
ghost use Rattle.text_reader.specs.Lines.{line};
ghost use Rattle.text_reader.specs.Steps.{StepMeans};
ghost use Rattle.overlay.specs.Overlay.{with_blocks, behind_name, overlay, read_overlay};
ghost use Rattle.overlay.specs.OverlayMarks.{ReadsMarked, TextMarked};

use super::block::blocks_to_end;
use super::line::overlay_line;
use fields::NAME_MAX;
use soc::{MODULES_MAX, Module, TEXT_MAX};
use text_line_reader::Place;
use text_lines::{Name, Options};
use text_reader::{Marks, due, options_step, taken};
use units::{Fault, Refusal};

// What an overlay says: which modules it has, and each at the place of its number; the other places hold a spare module.
// Its name is as the record has it.
#[derive(Clone, Copy)]
pub struct Overlay {
    pub name_len: usize,
    pub name: [u8; NAME_MAX],
    pub power: bool,
    pub xy: bool,
    pub has: [bool; MODULES_MAX],
    pub modules: [Module; MODULES_MAX],
}

// The same with the marks of one module.
#[derive(Clone, Copy)]
pub struct OverlayMarked {
    pub overlay: Overlay,
    pub marks: Marks,
}

fn name_step(text: &[u8], p: Place) -> Result<(Name, Place), Refusal>
    requires { Inside text.now p }
    ensures { StepMeans text.now result (line overlay_line (lines_at text.now p)) }
{
    let l = due(text, p)?;
    taken(overlay_line(&text[l.from..l.to]), l)
}

// The blocks of an overlay whose first two lines are read.
fn read_blocks(
    text: &[u8],
    p: Place,
    name: Name,
    o: Options,
    m: u32,
) -> Result<OverlayMarked, Refusal>
    requires { Inside text.now p }
    ensures { ReadsMarked m text.now p (with_blocks name o) result }
{
    let read = blocks_to_end(text, p, o, m)?;
    let bytes = name.bytes;
    let has = read.places.has;
    let modules = read.places.modules;
    let overlay = Overlay {
        name_len: name.len,
        name: bytes,
        power: o.power,
        xy: o.xy,
        has,
        modules,
    };
    Ok(OverlayMarked {
        overlay,
        marks: read.marks,
    })
}

fn read_behind_name(text: &[u8], p: Place, name: Name, m: u32) -> Result<OverlayMarked, Refusal>
    requires { Inside text.now p }
    ensures { ReadsMarked m text.now p (behind_name name) result }
{
    let (o, next) = options_step(text, p)?;
    read_blocks(text, next, name, o, m)
}

fn read_lines(text: &[u8], m: u32) -> Result<OverlayMarked, Refusal>
    ensures { ReadsMarked m text.now (place_at 0 1) overlay result }
{
    let (name, next) = name_step(text, Place { at: 0, line: 1 })?;
    read_behind_name(text, next, name, m)
}

// What an overlay says, and the marks of module m where the overlay has it.
pub fn read_overlay_marked(text: &[u8], m: u32) -> Result<OverlayMarked, Refusal>
    ensures { TextMarked m text.now result }
{
    if text.len() > TEXT_MAX {
        return Err(Refusal::at(Fault::LongText, 0));
    }
    if let Some(n) = fields::bad_byte(text) {
        return Err(Refusal::at(Fault::ForbiddenByte, n));
    }
    read_lines(text, m)
}

pub fn read_overlay(text: &[u8]) -> Result<Overlay, Refusal>
    ensures { result ≡ read_overlay text.now }
{
    let read = read_overlay_marked(text, 0)?;
    Ok(read.overlay)
}
