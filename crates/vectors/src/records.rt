// Prints a SOC record: every figure that document 01, "The SOC text", names, and whether a module is planned ("The plan").
use super::print::{CHAIN, END, MODULE, NOT_GIVEN, OPTIONS, TERMINALS, TEST, print, print_line};
use fields::NAME_MAX;
use soc::{Module, Soc};
use std::io;

// X, Y or Power, which may be not given.
fn given(z: i32) -> u64 {
    if z < 0 {
        return NOT_GIVEN;
    }
    z as u64
}

fn print_chains(rt: &HostRuntime, d: Module) -> io::Result<()> {
    for f in d.chains.iter().take(d.chain_count) {
        print_line(rt, CHAIN, f.0 as u64, 0, 0, 0)?;
    }
    print_line(rt, END, 0, 0, 0, 0)
}

fn print_tests(rt: &HostRuntime, d: Module) -> io::Result<()> {
    for t in d.tests.iter().take(d.test_count) {
        print_line(
            rt,
            TEST,
            t.scan_use as u64,
            t.tam_use as u64,
            t.patterns as u64,
            given(t.power),
        )?;
    }
    Ok(())
}

fn print_module(rt: &HostRuntime, m: usize, d: Module) -> io::Result<()> {
    print_line(
        rt,
        MODULE,
        m as u64,
        soc::is_planned(d) as u64,
        d.level as u64,
        d.inputs as u64,
    )?;
    print_line(
        rt,
        TERMINALS,
        d.outputs as u64,
        d.bidirs as u64,
        given(d.x),
        given(d.y),
    )?;
    print_chains(rt, d)?;
    print_tests(rt, d)
}

fn print_modules(rt: &HostRuntime, s: Soc) -> io::Result<()> {
    for (i, d) in s.modules.iter().take(s.module_count).enumerate() {
        print_module(rt, i, *d)?;
    }
    Ok(())
}

pub(crate) fn print_soc(rt: &HostRuntime, s: Soc) -> io::Result<()> {
    let n = s.name_len;
    let name = s.name;
    if n <= NAME_MAX {
        print(rt, &name[..n])?;
    }
    print_line(rt, OPTIONS, s.power as u64, s.xy as u64, 0, 0)?;
    print_modules(rt, s)
}
