// The first line of a module: its number, its level, its terminals and its chains.
ghost use Rattle.std.specs.Prelude.{◌≡◌, ◌≤◌, drop};
ghost use Rattle.fields.specs.Fields.{fields_of};
ghost use Rattle.fields.specs.Readers.{figure_is};
ghost use Rattle.text_lines.specs.Parts.{part_is, whole};
ghost use Rattle.text_lines.specs.Kinds.{level, terminals, lengths, chains, shape_part, level_line};
ghost use Rattle.soc.specs.Limits.{chains_max};

use super::part::{key_due, line_end};
use fields::key_figure;
use soc::{CHAINS_MAX, LENGTH_MAX, LEVEL_MAX, TERMINALS_MAX};
use units::{Fault, FlipFlops};

#[derive(Clone, Copy)]
pub struct Terminals {
    pub inputs: u32,
    pub outputs: u32,
    pub bidirs: u32,
}

// How many there are, and their lengths at the front of the places, as the record has them.
#[derive(Clone, Copy)]
pub struct Chains {
    pub count: usize,
    pub lengths: [FlipFlops; CHAINS_MAX],
}

#[derive(Clone, Copy)]
pub struct Shape {
    pub level: u32,
    pub terminals: Terminals,
    pub chains: Chains,
}

// `Module` m `Level` v.
fn level_part(l: &[u8], m: u32, last: u32) -> Result<(u64, usize), Fault>
    ensures { figure_is l.now result ≡ level m last (fields_of l.now) }
{
    let e1 = key_due(l, 0, b"Module", m)?;
    let (v, e2) = key_figure(l, e1, b"Level", 0, LEVEL_MAX)?;
    if soc::keeps_level_rule(m as usize, last, v as u32) {
        Ok((v, e2))
    } else {
        Err(Fault::BrokenRule)
    }
}

// `Inputs` n `Outputs` n `Bidirs` n.
fn terminals_at(l: &[u8], at: usize) -> Result<(Terminals, usize), Fault>
    ensures { part_is l.now result ≡ terminals (fields_of (drop at l.now)) }
{
    let (i, e1) = key_figure(l, at, b"Inputs", 0, TERMINALS_MAX)?;
    let (o, e2) = key_figure(l, e1, b"Outputs", 0, TERMINALS_MAX)?;
    let (b, e3) = key_figure(l, e2, b"Bidirs", 0, TERMINALS_MAX)?;
    let terminals = Terminals {
        inputs: i as u32,
        outputs: o as u32,
        bidirs: b as u32,
    };
    Ok((terminals, e3))
}

// n lengths, at the front of the places for chains.
fn lengths_at(l: &[u8], from: usize, n: usize) -> Result<([FlipFlops; CHAINS_MAX], usize), Fault>
    requires { n ≤ chains_max }
    ensures { part_is l.now result ≡ lengths n (fields_of (drop from l.now)) }
{
    let mut lengths = [FlipFlops(0); CHAINS_MAX];
    let mut at = from;
    for place in lengths[..n].iter_mut() {
        let (v, e) = fields::figure_at(l, at, 1, LENGTH_MAX)?;
        *place = FlipFlops(v as u32);
        at = e;
    }
    Ok((lengths, at))
}

// `ScanChains` s `:` then s lengths.
fn chains_at(l: &[u8], at: usize) -> Result<(Chains, usize), Fault>
    ensures { part_is l.now result ≡ chains (fields_of (drop at l.now)) }
{
    let (s, e1) = key_figure(l, at, b"ScanChains", 0, CHAINS_MAX as u32)?;
    let e2 = fields::past_word(l, e1, b":")?;
    let count = s as usize;
    let (lengths, e3) = lengths_at(l, e2, count)?;
    Ok((Chains { count, lengths }, e3))
}

// A module's first line behind its level, to the line's end.
pub fn shape_to_end(l: &[u8], at: usize, level: u32) -> Result<Shape, Fault>
    ensures { result ≡ whole (shape_part level) (fields_of (drop at l.now)) }
{
    let (terminals, e1) = terminals_at(l, at)?;
    let (chains, e2) = chains_at(l, e1)?;
    line_end(l, e2)?;
    Ok(Shape {
        level,
        terminals,
        chains,
    })
}

// The line of module m, where the previous module has level last.
pub fn level_line(l: &[u8], m: u32, last: u32) -> Result<Shape, Fault>
    ensures { result ≡ whole (level_line m last) (fields_of l.now) }
{
    let (v, e) = level_part(l, m, last)?;
    shape_to_end(l, e, v as u32)
}
