// A SOC text read to its record, or to its first refusal: 1, then 2 anywhere, then the lines from the top.
ghost use Rattle.std.specs.Prelude.{◌≡◌, ◌≤◌};
ghost use Rattle.soc.specs.Limits.{modules_max};
ghost use Rattle.text_reader.specs.Reading.{rest, behind_name, soc, read_soc};
ghost use Rattle.text_line_reader.specs.Due.{Inside, place_at};
ghost use Rattle.text_reader.specs.Marks.{ModulesMean, ReadsMarked, TextMarked};

use super::block::module_step;
use super::head::{name_step, options_step, total_step};
use super::marks::{Marks, marked};
use soc::{MODULES_MAX, Module, Soc, TEXT_MAX};
use text_line_reader::{Place, due_line};
use text_lines::{Name, Options};
use units::{Fault, Refusal};

// The record of a text, and the marks of one module.
#[derive(Clone, Copy)]
pub struct SocMarked {
    pub soc: Soc,
    pub marks: Marks,
}

#[derive(Clone, Copy)]
pub struct ModulesMarked {
    pub modules: [Module; MODULES_MAX],
    pub marks: Marks,
}

// The lines of n modules, at the front of the places for modules, and the marks of module m.
fn modules_step(
    text: &[u8],
    p: Place,
    n: usize,
    o: Options,
    m: u32,
) -> Result<(ModulesMarked, Place), Refusal>
    requires { Inside text.now p × (n ≤ modules_max) }
    ensures { ModulesMean text.now p n o m result }
{
    let mut modules = [soc::no_module(); MODULES_MAX];
    let mut marks = Marks { from: 0, to: 0 };
    let mut place = p;
    let mut last: u32 = 0;
    for i in 0..n {
        let (module, next) = module_step(text, place, i as u32, last, o)?;
        last = module.level;
        modules[i] = module;
        marks = marked(marks, m, i as u32, place.at, next.at);
        place = next;
    }
    Ok((ModulesMarked { modules, marks }, place))
}

// The modules of a text whose first three lines are read, and nothing behind them.
fn modules_to_end(
    text: &[u8],
    p: Place,
    name: Name,
    n: usize,
    o: Options,
    m: u32,
) -> Result<SocMarked, Refusal>
    requires { Inside text.now p × (n ≤ modules_max) }
    ensures { ReadsMarked m text.now p (rest name n o) result }
{
    let (read, behind) = modules_step(text, p, n, o, m)?;
    if let Some(l) = due_line(text, behind) {
        return Err(Refusal::at(Fault::WrongForm, l.number));
    }
    let bytes = name.bytes;
    let modules = read.modules;
    let soc = Soc {
        name_len: name.len,
        name: bytes,
        power: o.power,
        xy: o.xy,
        module_count: n,
        modules,
    };
    Ok(SocMarked {
        soc,
        marks: read.marks,
    })
}

// The lines of a text from the second on.
fn read_behind_name(text: &[u8], p: Place, name: Name, m: u32) -> Result<SocMarked, Refusal>
    requires { Inside text.now p }
    ensures { ReadsMarked m text.now p (behind_name name) result }
{
    let (n, q) = total_step(text, p)?;
    let (o, next) = options_step(text, q)?;
    modules_to_end(text, next, name, n, o, m)
}

fn read_lines(text: &[u8], m: u32) -> Result<SocMarked, Refusal>
    ensures { ReadsMarked m text.now (place_at 0 1) soc result }
{
    let (name, next) = name_step(text, Place { at: 0, line: 1 })?;
    read_behind_name(text, next, name, m)
}

// What a text says, and the marks of module m where the text has it.
pub fn read_soc_marked(text: &[u8], m: u32) -> Result<SocMarked, Refusal>
    ensures { TextMarked m text.now result }
{
    if text.len() > TEXT_MAX {
        return Err(Refusal::at(Fault::LongText, 0));
    }
    if let Some(n) = fields::bad_byte(text) {
        return Err(Refusal::at(Fault::ForbiddenByte, n));
    }
    read_lines(text, m)
}

pub fn read_soc(text: &[u8]) -> Result<Soc, Refusal>
    ensures { result ≡ read_soc text.now }
{
    let read = read_soc_marked(text, 0)?;
    Ok(read.soc)
}
