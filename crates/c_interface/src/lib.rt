// Every entry of the library for callers in other languages, on numbers and bytes; `c_interface_c` exports them (include/tallowwing.h). An answer is
// one number: its lowest byte is the refusal's number or 0, above it stands the refusal's line, or the figure that the function gives.
#![tactic(auto)]

ghost use Rattle.std.specs.Prelude.{◌≡◌};
ghost use Rattle.c_interface.specs.Codes.{above, refusal_code, code, itself, cycles_of, wires_of, bytes_code, read_code, read_held, write_code, write_held, layout_code, layout_held, module_time_code, module_wires_code, plan_code, plan_held, write_plan_code, write_plan_held, read_plan_code, read_plan_held, listing_code, listing_held, show_code, show_held, meant_number, pair_refused, read_pair_code, read_pair_held, places_of, module_lines_code};
ghost use Rattle.c_interface.specs.Codes.{pair_figure, write_pair_code, layout_pair_code, layout_pair_held};
ghost use Rattle.c_interface.specs.Codes.{module_time_pair_code, module_wires_pair_code, plan_pair_code, plan_pair_held};
ghost use Rattle.c_interface.specs.Codes.{budget_code, budget_held};
ghost use Rattle.pair_entries.specs.WrittenPair.{write_pair_leaves};

use budget::Ended;
use pair::{Meant, PairRefusal, Shown};
use units::{CaptureCycles, Fault, Refusal, Wires};
use wrapper::ModuleTime;

// v has 56 bits: a line and a length stay far below, and a time has at most 46.
#[tactic(auto, unfolding(crate::specs::Codes::above))]
fn above_byte(n: u8, v: u64) -> u64
    ensures { result ≡ above n v }
{
    u64::from(n) + 256 * (v % 72057594037927936)
}

#[tactic(auto, unfolding(crate::specs::Codes::refusal_code))]
fn refusal_code(r: Refusal) -> u64
    ensures { result ≡ refusal_code r }
{
    above_byte(u8::from(r.fault), r.line as u64)
}

#[tactic(auto, unfolding(crate::specs::Codes::code))]
fn code_of(answer: Result<u64, Refusal>) -> u64
    ensures { result ≡ code itself answer }
{
    match answer {
        Ok(figure) => above_byte(0, figure),
        Err(r) => refusal_code(r),
    }
}

fn as_figure(n: usize) -> u64
    ensures { result ≡ itself n }
{
    n as u64
}

fn cycles_of(t: ModuleTime) -> u64
    ensures { result ≡ cycles_of t }
{
    t.cycles.0
}

fn wires_of(t: ModuleTime) -> u64
    ensures { result ≡ wires_of t }
{
    u64::from(t.wires.0)
}

// Where k bytes of a result were put, and 0 says that there was no room.
#[tactic(auto, unfolding(crate::specs::Codes::bytes_code, crate::specs::Codes::code))]
fn code_of_bytes(k: usize) -> u64
    ensures { result ≡ bytes_code k }
{
    if k == 0 {
        return refusal_code(Refusal::at(Fault::ShortBuffer, 0));
    }
    above_byte(0, k as u64)
}

#[tactic(auto, unfolding(crate::specs::Codes::given_unless, crate::specs::Codes::held_unless))]
pub fn tallowwing_read_soc(text: &[u8], into: &mut [u8]) -> u64
    ensures { (result ≡ read_code text.now into.old) × (into.new ≡ read_held text.now into.old) }
{
    match text::read_soc(text) {
        Ok(s) => code_of_bytes(c_forms::soc_bytes(s, into)),
        Err(unread) => refusal_code(unread),
    }
}

#[tactic(auto, unfolding(crate::specs::Codes::code))]
pub fn tallowwing_write_soc(soc: &[u8], into: &mut [u8]) -> u64
    ensures { (result ≡ write_code soc.now into.old) × (into.new ≡ write_held soc.now into.old) }
{
    match text::write_soc(c_forms::soc_in(soc), into) {
        Ok(written) => above_byte(0, written as u64),
        Err(unwritten) => refusal_code(unwritten),
    }
}

pub fn tallowwing_layout(
    soc: &[u8],
    module: u32,
    test: u32,
    width: u32,
    capture: u32,
    into: &mut [u8],
) -> u64
    ensures { (result ≡ layout_code soc.now «module» test width capture into.old) × (into.new ≡ layout_held soc.now «module» test width capture into.old) }
{
    let s = c_forms::soc_in(soc);
    match wrapper::layout(s, module, test, Wires(width), CaptureCycles(capture)) {
        Ok(l) => code_of_bytes(c_forms::layout_bytes(l, into)),
        Err(r) => refusal_code(r),
    }
}

pub fn tallowwing_module_time(soc: &[u8], module: u32, width: u32, capture: u32) -> u64
    ensures { result ≡ module_time_code soc.now «module» width capture }
{
    let s = c_forms::soc_in(soc);
    let time = wrapper::module_time(s, module, Wires(width), CaptureCycles(capture));
    code_of(time.map(cycles_of))
}

pub fn tallowwing_module_wires(soc: &[u8], module: u32, width: u32, capture: u32) -> u64
    ensures { result ≡ module_wires_code soc.now «module» width capture }
{
    let s = c_forms::soc_in(soc);
    let best = wrapper::module_time(s, module, Wires(width), CaptureCycles(capture));
    code_of(best.map(wires_of))
}

pub fn tallowwing_plan(soc: &[u8], wires: u32, limit: u32, capture: u32, into: &mut [u8]) -> u64
    ensures { (result ≡ plan_code soc.now wires limit capture into.old) × (into.new ≡ plan_held soc.now wires limit capture into.old) }
{
    let s = c_forms::soc_in(soc);
    match plan::plan(s, Wires(wires), limit, CaptureCycles(capture)) {
        Ok(p) => code_of_bytes(c_forms::plan_bytes(p, into)),
        Err(r) => refusal_code(r),
    }
}

pub fn tallowwing_budget(
    soc: &[u8],
    wires: u32,
    limit: u32,
    capture: u32,
    tries: u64,
    into: &mut [u8],
) -> u64
    ensures { (result ≡ budget_code soc.now wires limit capture tries into.old)
        × (into.new ≡ budget_held soc.now wires limit capture tries into.old) }
{
    let s = c_forms::soc_in(soc);
    match budget::plan_within(s, Wires(wires), limit, CaptureCycles(capture), tries) {
        Ok(found) => code_of_bytes(c_forms::budget_bytes(
            found.ended == Ended::Finished,
            found.plan.is_some(),
            found.tries,
            found.plan.unwrap_or(plan_record::no_plan()),
            into,
        )),
        Err(r) => refusal_code(r),
    }
}

#[tactic(auto, unfolding(crate::specs::Codes::code))]
pub fn tallowwing_write_plan(from: &[u8], into: &mut [u8]) -> u64
    ensures { (result ≡ write_plan_code from.now into.old) × (into.new ≡ write_plan_held from.now into.old) }
{
    match plan_file::write_plan(c_forms::plan_in(from), into) {
        Ok(filed) => above_byte(0, filed as u64),
        Err(unfiled) => refusal_code(unfiled),
    }
}

#[tactic(auto, unfolding(crate::specs::Codes::given_unless, crate::specs::Codes::held_unless))]
pub fn tallowwing_read_plan(file: &[u8], into: &mut [u8]) -> u64
    ensures { (result ≡ read_plan_code file.now into.old) × (into.new ≡ read_plan_held file.now into.old) }
{
    match plan_file::read_plan(file) {
        Ok(p) => code_of_bytes(c_forms::plan_bytes(p, into)),
        Err(unheld) => refusal_code(unheld),
    }
}

#[tactic(auto, unfolding(crate::specs::Codes::code))]
pub fn tallowwing_listing(input: &[u8], into: &mut [u8]) -> u64
    ensures { (result ≡ listing_code input.now into.old) × (into.new ≡ listing_held input.now into.old) }
{
    match listing::listing(input, into) {
        Ok(listed) => above_byte(0, listed as u64),
        Err(unlisted) => refusal_code(unlisted),
    }
}

#[tactic(auto, unfolding(crate::specs::Codes::code))]
pub fn tallowwing_show(from: &[u8], into: &mut [u8]) -> u64
    ensures { (result ≡ show_code from.now into.old) × (into.new ≡ show_held from.now into.old) }
{
    match plan_lines::show(c_forms::plan_in(from), into) {
        Ok(shown) => above_byte(0, shown as u64),
        Err(unshown) => refusal_code(unshown),
    }
}

// A crate cannot say how another's type becomes a number of the language's, so this is no `From`.
#[tactic(auto, unfolding(crate::specs::Codes::meant_number))]
fn meant_number(m: Meant) -> u64
    ensures { result ≡ meant_number m }
{
    match m {
        Meant::Neither => 0,
        Meant::Base => 1,
        Meant::Overlay => 2,
    }
}

// A line stays far below 2⁵⁴.
#[tactic(auto, using(crate::proofs::CodeLaws::meant_most), unfolding(crate::specs::Codes::pair_refused))]
fn pair_refused(r: PairRefusal) -> u64
    ensures { result ≡ pair_refused r }
{
    above_byte(
        u8::from(r.refusal.fault),
        4 * (r.refusal.line as u64 % 18014398509481984) + meant_number(r.meant),
    )
}

#[tactic(auto, unfolding(crate::specs::Codes::pair_figure))]
fn pair_code_of(answer: Result<u64, PairRefusal>) -> u64
    ensures { result ≡ pair_figure itself answer }
{
    match answer {
        Ok(v) => above_byte(0, v),
        Err(r) => pair_refused(r),
    }
}

pub fn tallowwing_read_pair(base: &[u8], overlay: &[u8], into: &mut [u8]) -> u64
    ensures { (result ≡ read_pair_code base.now overlay.now into.old) × (into.new ≡ read_pair_held base.now overlay.now into.old) }
{
    match pair::read_pair(base, overlay) {
        Ok(both) => code_of_bytes(c_forms::soc_bytes(both.soc, into)),
        Err(r) => pair_refused(r),
    }
}

#[tactic(auto, unfolding(crate::specs::Codes::part_figure))]
fn part_figure(s: Shown) -> u64
    ensures { result ≡ places_of s }
{
    let (from, to) = (s.part.from as u64, s.part.to as u64);
    131072 * (from % 65536) + 2 * (to % 65536) + u64::from(s.over)
}

pub fn tallowwing_module_lines(base: &[u8], overlay: &[u8], module: u32) -> u64
    ensures { result ≡ module_lines_code base.now overlay.now «module» }
{
    pair_code_of(pair::lines_shown(base, overlay, module).map(part_figure))
}

pub fn tallowwing_write_pair(base: &[u8], overlay: &[u8], into: &mut [u8]) -> u64
    ensures { (result ≡ write_pair_code base.now overlay.now into.old)
        × (into.new ≡ write_pair_leaves base.now overlay.now into.old) }
{
    let written = pair_entries::write_pair(base, overlay, into);
    pair_code_of(written.map(as_figure))
}

pub fn tallowwing_layout_pair(
    base: &[u8],
    overlay: &[u8],
    module: u32,
    test: u32,
    width: u32,
    capture: u32,
    into: &mut [u8],
) -> u64
    ensures { (result ≡ layout_pair_code base.now overlay.now «module» test width capture into.old)
        × (into.new ≡ layout_pair_held base.now overlay.now «module» test width capture into.old) }
{
    let (w, c) = (Wires(width), CaptureCycles(capture));
    let laid = pair_entries::layout_pair(base, overlay, module, test, w, c);
    match laid {
        Ok(l) => code_of_bytes(c_forms::layout_bytes(l, into)),
        Err(unlaid) => pair_refused(unlaid),
    }
}

#[tactic(auto, unfolding(crate::specs::Codes::pair_figure))]
pub fn tallowwing_module_time_pair(
    base: &[u8],
    overlay: &[u8],
    module: u32,
    width: u32,
    capture: u32,
) -> u64
    ensures { result ≡ module_time_pair_code base.now overlay.now «module» width capture }
{
    let (w, c) = (Wires(width), CaptureCycles(capture));
    let time = pair_entries::module_time_pair(base, overlay, module, w, c);
    match time {
        Ok(t) => above_byte(0, cycles_of(t)),
        Err(untimed) => pair_refused(untimed),
    }
}

#[tactic(auto, unfolding(crate::specs::Codes::pair_figure))]
pub fn tallowwing_module_wires_pair(
    base: &[u8],
    overlay: &[u8],
    module: u32,
    width: u32,
    capture: u32,
) -> u64
    ensures { result ≡ module_wires_pair_code base.now overlay.now «module» width capture }
{
    let (w, c) = (Wires(width), CaptureCycles(capture));
    let best = pair_entries::module_time_pair(base, overlay, module, w, c);
    match best {
        Ok(t) => above_byte(0, wires_of(t)),
        Err(unwired) => pair_refused(unwired),
    }
}

pub fn tallowwing_plan_pair(
    base: &[u8],
    overlay: &[u8],
    wires: u32,
    limit: u32,
    capture: u32,
    into: &mut [u8],
) -> u64
    ensures { (result ≡ plan_pair_code base.now overlay.now wires limit capture into.old)
        × (into.new ≡ plan_pair_held base.now overlay.now wires limit capture into.old) }
{
    let (w, c) = (Wires(wires), CaptureCycles(capture));
    let planned = pair_entries::plan_pair(base, overlay, w, limit, c);
    match planned {
        Ok(p) => code_of_bytes(c_forms::plan_bytes(p, into)),
        Err(unplanned) => pair_refused(unplanned),
    }
}
