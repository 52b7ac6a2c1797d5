// Prints what is answered of a SOC text and an overlay (document 02, item 3): the plan's time, a test's and a module's, the written form,
// and the lines of a module as they stand.
use super::lent::{BEFORE, at_most, kept_to};
use super::print::{BOTH_PADDED, END, INTO, MEANT, PAIR, number, print, print_line, read_text};
use pair::{Meant, PairRefusal};
use pair_entries::{layout_pair, module_time_pair, plan_pair, write_pair};
use std::io;
use units::{CaptureCycles, Wires};

// The text that a refusal is about: 0 neither, 1 the base, 2 the overlay.
fn text_of(m: Meant) -> u64 {
    match m {
        Meant::Neither => 0,
        Meant::Base => 1,
        Meant::Overlay => 2,
    }
}

// A time, or the refusal in its place.
fn print_time(rt: &HostRuntime, time: Result<u64, PairRefusal>) -> io::Result<()> {
    match time {
        Ok(t) => print_line(rt, PAIR, 0, 0, 0, t),
        Err(r) => print_line(
            rt,
            PAIR,
            number(r.refusal.fault),
            r.refusal.line as u64,
            text_of(r.meant),
            0,
        ),
    }
}

// The plan's time of a pair.
fn show_planned(
    rt: &HostRuntime,
    base: &[u8],
    overlay: &[u8],
    w: u32,
    b: u32,
    capture: u32,
) -> io::Result<()> {
    let planned = plan_pair(base, overlay, Wires(w), b, CaptureCycles(capture));
    print_time(rt, planned.map(|p| p.time.0))
}

// The plan's time of the pair that is arguments i and j.
pub(crate) fn show_pair(
    rt: &HostRuntime,
    i: usize,
    j: usize,
    w: u32,
    b: u32,
    capture: u32,
) -> io::Result<()> {
    let mut base = [0u8; 65536];
    let n = read_text(rt, i, &mut base)?;
    let mut overlay = [0u8; 65536];
    let k = read_text(rt, j, &mut overlay)?;
    show_planned(rt, &base[..n], &overlay[..k], w, b, capture)
}

// The same of both texts with blank lines behind them, n and k bytes in all.
pub(crate) fn show_padded_pair(
    rt: &HostRuntime,
    i: usize,
    j: usize,
    n: usize,
    k: usize,
) -> io::Result<()> {
    let mut base = [b'\n'; 65536];
    read_text(rt, i, &mut base)?;
    let mut overlay = [b'\n'; 65536];
    read_text(rt, j, &mut overlay)?;
    print_line(rt, BOTH_PADDED, n as u64, k as u64, 0, 0)?;
    let to = at_most(n, &base);
    let end = at_most(k, &overlay);
    show_planned(rt, &base[..to], &overlay[..end], 4, 2, 1)
}

// The time of a test of a module of the pair that is arguments i and j, as its layout has it, and then the module's.
pub(crate) fn show_asked(
    rt: &HostRuntime,
    i: usize,
    j: usize,
    module: u32,
    test: u32,
    width: u32,
    capture: u32,
) -> io::Result<()> {
    let mut base = [0u8; 65536];
    let n = read_text(rt, i, &mut base)?;
    let mut overlay = [0u8; 65536];
    let k = read_text(rt, j, &mut overlay)?;
    let c = CaptureCycles(capture);
    let laid = layout_pair(&base[..n], &overlay[..k], module, test, Wires(width), c);
    print_time(rt, laid.map(|l| l.cycles.0))?;
    let time = module_time_pair(&base[..n], &overlay[..k], module, Wires(width), c);
    print_time(rt, time.map(|t| t.cycles.0))
}

// Lends the writer the first n bytes of a buffer, and prints what it wrote.
fn show_into(
    rt: &HostRuntime,
    base: &[u8],
    overlay: &[u8],
    buf: &mut [u8],
    n: usize,
) -> io::Result<()> {
    let k = at_most(n, &*buf);
    let (len, text, refused) = match write_pair(base, overlay, &mut buf[..k]) {
        Ok(n) => (n, 0, 0),
        Err(r) => (0, text_of(r.meant), number(r.refusal.fault)),
    };
    let end = kept_to(&*buf, len);
    print_line(rt, MEANT, text, 0, 0, 0)?;
    print_line(rt, INTO, k as u64, refused, len as u64, end as u64)?;
    let to = at_most(len, &*buf);
    print(rt, &buf[..to])
}

// The written form of the pair that is arguments i and j, in n bytes.
pub(crate) fn show_written(rt: &HostRuntime, i: usize, j: usize, n: usize) -> io::Result<()> {
    let mut base = [0u8; 65536];
    let k = read_text(rt, i, &mut base)?;
    let mut overlay = [0u8; 65536];
    let o = read_text(rt, j, &mut overlay)?;
    let mut form = [BEFORE; 65536];
    show_into(rt, &base[..k], &overlay[..o], &mut form, n)
}

// The lines of a module of the pair that is arguments i and j.
pub(crate) fn show_lines(rt: &HostRuntime, i: usize, j: usize, module: u32) -> io::Result<()> {
    let mut base = [0u8; 65536];
    let n = read_text(rt, i, &mut base)?;
    let mut overlay = [0u8; 65536];
    let k = read_text(rt, j, &mut overlay)?;
    print(rt, pair::module_lines(&base[..n], &overlay[..k], module))?;
    print_line(rt, END, 0, 0, 0, 0)
}
