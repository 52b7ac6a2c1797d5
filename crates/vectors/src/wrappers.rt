// Prints layouts and times (document 01, "The wrapper rule"; document 02, items 2, 5 and 8).
use super::print::{
    CHAINS, INTERNAL, LAYOUT, SCANS, TIME, TIMES, WIRES, number_of, print_line, soc_in,
};
use soc::Soc;
use std::io;
use units::{CaptureCycles, Wires};
use wrapper::WrapperLayout;

// The first ten places: of wrapper chains, and of internal chains.
fn print_layout(rt: &HostRuntime, l: WrapperLayout) -> io::Result<()> {
    for i in 0..10 {
        let f = l.flip_flops[i];
        print_line(
            rt,
            CHAINS,
            f.0 as u64,
            l.input_cells[i],
            l.output_cells[i],
            l.bidir_cells[i],
        )?;
        print_line(rt, INTERNAL, l.chain_of[i] as u64, 0, 0, 0)?;
    }
    Ok(())
}

// The layout of a module of the text that is argument i.
pub(crate) fn show_layout(
    rt: &HostRuntime,
    i: usize,
    module: u32,
    test: u32,
    width: u32,
    capture: u32,
) -> io::Result<()> {
    let c = CaptureCycles(capture);
    let laid = wrapper::layout(soc_in(rt, i)?, module, test, Wires(width), c);
    print_line(
        rt,
        LAYOUT,
        module as u64,
        test as u64,
        width as u64,
        number_of(&laid),
    )?;
    if let Ok(l) = laid {
        print_line(rt, SCANS, l.si, l.so, l.cycles.0, 0)?;
        print_layout(rt, l)?;
    }
    Ok(())
}

// Where a time is refused, 0 is printed in its place.
fn show_time(rt: &HostRuntime, s: Soc, module: u32, width: u32, capture: u32) -> io::Result<()> {
    let (w, c) = (Wires(width), CaptureCycles(capture));
    let test = wrapper::layout(s, module, 1, w, c).map_or(0, |l| l.cycles.0);
    let best = wrapper::module_time(s, module, w, c);
    let refused = number_of(&best);
    let (cycles, wires) = best.map_or((0, 0), |m| (m.cycles.0, m.wires.0));
    print_line(rt, TIME, width as u64, refused, test, cycles)?;
    print_line(rt, WIRES, wires as u64, 0, 0, 0)
}

// The times of a module of the text that is argument i, at some widths.
pub(crate) fn show_times(
    rt: &HostRuntime,
    i: usize,
    module: u32,
    from: u32,
    to: u32,
    capture: u32,
) -> io::Result<()> {
    let s = soc_in(rt, i)?;
    print_line(rt, TIMES, module as u64, 0, 0, 0)?;
    for w in from..=to {
        show_time(rt, s, module, w, capture)?;
    }
    Ok(())
}
