// The first line of the input: `Plan W B`, and c where it is given.
ghost use Rattle.std.specs.Prelude.{◌≡◌, drop};
ghost use Rattle.fields.specs.Fields.{fields_of};
ghost use Rattle.fields.specs.Lines.{line_at};
ghost use Rattle.text_lines.specs.Parts.{part_is, whole};
ghost use Rattle.listing.specs.Asked.{capture_number, plan_line, asked};

use fields::OneLine;
use units::Fault;

const PLAN_LINE_MAX: usize = 32;

const ASKED_MAX: u32 = 4294967295;

// W, B and c.
#[derive(Clone, Copy)]
pub struct Wanted {
    pub wires: u32,
    pub limit: u32,
    pub capture: u32,
}

// c, which is 1 where no field is left.
fn capture_at(l: &[u8], at: usize) -> Result<(u32, usize), Fault>
    ensures { part_is l.now result ≡ capture_number (fields_of (drop at l.now)) }
{
    if fields::is_blank(l, at) {
        return Ok((1, at));
    }
    let (c, e) = fields::figure_at(l, at, 0, ASKED_MAX)?;
    Ok((c as u32, e))
}

fn plan_line(l: &[u8]) -> Result<Wanted, Fault>
    ensures { result ≡ whole plan_line (fields_of l.now) }
{
    let e1 = fields::past_word(l, 0, b"Plan")?;
    let (wires, e2) = fields::figure_at(l, e1, 0, ASKED_MAX)?;
    let (limit, e3) = fields::figure_at(l, e2, 0, ASKED_MAX)?;
    let (capture, e4) = capture_at(l, e3)?;
    if !fields::is_blank(l, e4) {
        return Err(Fault::WrongForm);
    }
    Ok(Wanted {
        wires: wires as u32,
        limit: limit as u32,
        capture,
    })
}

// What the input's first line asks for.
pub(crate) fn asked_of(input: &[u8], line: OneLine) -> Result<Wanted, Fault>
    requires { line ≡ line_at input.now 0 }
    ensures { result ≡ asked input.now }
{
    if line.next > PLAN_LINE_MAX {
        return Err(Fault::WrongForm);
    }
    plan_line(&input[..line.to])
}
