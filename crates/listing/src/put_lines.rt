// The printed lines put into a buffer at a place, each with its figures, single spaces and LF. The answer is the place behind them. A figure has at
// most 20 digits and a name at most 32 bytes, which bounds each line.
ghost use Rattle.std.specs.Prelude.{◌+◌, ◌*◌, ◌≤◌, [], ◌∷◌, length, take};
ghost use Rattle.buffer.specs.Puts.{Put};
ghost use Rattle.fields.specs.Names.{name_max};
ghost use Rattle.fields.specs.WrittenLines.{written_lines};
ghost use Rattle.plan_record.specs.Record.{bus_places, module_places, buses_of, modules_of};
ghost use Rattle.listing.specs.Listing.{refusal_fields, count_fields, soc_fields, bus_fields, bus_lines, module_fields, module_lines, plan_lines};
ghost use Rattle.listing.specs.Room.{refusal_room, count_room, name_room, bus_room, module_room, rest_room, plan_room};
ghost use Rattle.listing.specs.Rest.{rest_text};
ghost use Rattle.listing.specs.Forms.{marks, formed};

use plan_record::{Bus, BusPlan, PlacedModule};
use soc::Soc;
use units::Refusal;

// A form put at a place: each `#` in it stands for the next of the figures.
fn put_form(buf: &mut [u8], at: usize, form: &[u8], figures: &[u64]) -> usize
    requires { (marks form.now ≤ length figures.now) × (at + length (formed form.now figures.now) ≤ length buf.old) }
    ensures { Put (formed form.now figures.now) at buf.old buf.new result }
{
    let mut e = at;
    let mut k: usize = 0;
    for b in form {
        if *b == b'#' {
            e = fields::put_number(&mut *buf, e, figures[k]);
            k += 1;
        } else {
            buf[e] = *b;
            e += 1;
        }
    }
    e
}

// `refused N line L`.
pub(crate) fn put_refusal(buf: &mut [u8], at: usize, r: Refusal) -> usize
    requires { at + refusal_room ≤ length buf.old }
    ensures { Put (written_lines (refusal_fields r ∷ [])) at buf.old buf.new result × (length (written_lines (refusal_fields r ∷ [])) ≤ refusal_room) }
{
    let figures = [u64::from(u8::from(r.fault)), r.line as u64];
    put_form(&mut *buf, at, b"refused # line #\n", &figures)
}

// `wires` W `limit` B `time` T.
pub fn put_counts(buf: &mut [u8], at: usize, p: BusPlan) -> usize
    requires { at + count_room ≤ length buf.old }
    ensures { Put (written_lines (count_fields p ∷ [])) at buf.old buf.new result × (length (written_lines (count_fields p ∷ [])) ≤ count_room) }
{
    let figures = [p.wires.0 as u64, p.limit as u64, p.time.0];
    put_form(&mut *buf, at, b"wires # limit # time #\n", &figures)
}

// `soc` name, and the same behind it.
fn put_soc_line(buf: &mut [u8], at: usize, s: Soc, p: BusPlan) -> usize
    requires { (s.name_len ≤ name_max) × (at + name_room + count_room ≤ length buf.old) }
    ensures { Put (written_lines (soc_fields s p ∷ [])) at buf.old buf.new result × (length (written_lines (soc_fields s p ∷ [])) ≤ name_room + count_room) }
{
    let a = buffer::put_bytes(&mut *buf, at, b"soc ");
    let b = buffer::put_bytes(&mut *buf, a, &s.name[..s.name_len]);
    let c = buffer::put_bytes(&mut *buf, b, b" ");
    put_counts(&mut *buf, c, p)
}

// `bus` i `width` w `busy` b.
fn put_bus_line(buf: &mut [u8], at: usize, i: u64, b: Bus) -> usize
    requires { at + bus_room ≤ length buf.old }
    ensures { Put (written_lines (bus_fields i b ∷ [])) at buf.old buf.new result × (length (written_lines (bus_fields i b ∷ [])) ≤ bus_room) }
{
    let figures = [i, b.width.0 as u64, b.busy.0];
    put_form(&mut *buf, at, b"bus # width # busy #\n", &figures)
}

// `module` m `bus` i `wires` k `cycles` x `start` s.
fn put_module_line(buf: &mut [u8], at: usize, m: PlacedModule) -> usize
    requires { at + module_room ≤ length buf.old }
    ensures { Put (written_lines (module_fields m ∷ [])) at buf.old buf.new result × (length (written_lines (module_fields m ∷ [])) ≤ module_room) }
{
    let figures = [
        m.number as u64,
        m.bus as u64,
        m.wires.0 as u64,
        m.cycles.0,
        m.start.0,
    ];
    put_form(
        &mut *buf,
        at,
        b"module # bus # wires # cycles # start #\n",
        &figures,
    )
}

fn put_buses(buf: &mut [u8], at: usize, p: BusPlan) -> usize
    requires { (p.bus_count ≤ bus_places) × (at + bus_places * bus_room ≤ length buf.old) }
    ensures { Put (written_lines (bus_lines 1 (buses_of p))) at buf.old buf.new result × (length (written_lines (bus_lines 1 (buses_of p))) ≤ bus_places * bus_room) }
{
    let mut e = at;
    for (i, b) in p.buses[..p.bus_count].iter().enumerate() {
        e = put_bus_line(&mut *buf, e, i as u64 + 1, *b);
    }
    e
}

fn put_modules(buf: &mut [u8], at: usize, p: BusPlan) -> usize
    requires { (p.module_count ≤ module_places) × (at + module_places * module_room ≤ length buf.old) }
    ensures { Put (written_lines (module_lines (modules_of p))) at buf.old buf.new result × (length (written_lines (module_lines (modules_of p))) ≤ module_places * module_room) }
{
    let mut e = at;
    for m in &p.modules[..p.module_count] {
        e = put_module_line(&mut *buf, e, *m);
    }
    e
}

// The lines behind the first.
pub fn put_rest(buf: &mut [u8], at: usize, p: BusPlan) -> usize
    requires { (p.bus_count ≤ bus_places) × (p.module_count ≤ module_places) × (at + rest_room ≤ length buf.old) }
    ensures { Put (rest_text p) at buf.old buf.new result × (length (rest_text p) ≤ rest_room) }
{
    let a = put_buses(&mut *buf, at, p);
    put_modules(&mut *buf, a, p)
}

// The lines of a plan.
pub(crate) fn put_plan(buf: &mut [u8], at: usize, s: Soc, p: BusPlan) -> usize
    requires { (s.name_len ≤ name_max) × (p.bus_count ≤ bus_places) × (p.module_count ≤ module_places) × (at + plan_room ≤ length buf.old) }
    ensures { Put (written_lines (plan_lines s p)) at buf.old buf.new result × (length (written_lines (plan_lines s p)) ≤ plan_room) }
{
    let a = put_soc_line(&mut *buf, at, s, p);
    put_rest(&mut *buf, a, p)
}
