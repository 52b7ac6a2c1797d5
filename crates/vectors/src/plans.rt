// Prints plans (document 01, "The plan"; document 02, items 1 and 5), also those of the planner with a spending limit (item 7).
use super::print::{BUDGET, BUS, PLACED, PLAN, SPENT, START, number_of, print_line, soc_in};
use budget::{BudgetAnswer, Ended};
use plan_record::{BusPlan, no_plan};
use std::io;
use units::{CaptureCycles, Wires};

fn print_buses(rt: &HostRuntime, p: BusPlan) -> io::Result<()> {
    for (i, b) in p.buses.iter().take(p.bus_count).enumerate() {
        print_line(rt, BUS, i as u64 + 1, b.width.0 as u64, b.busy.0, 0)?;
    }
    Ok(())
}

fn print_placed(rt: &HostRuntime, p: BusPlan) -> io::Result<()> {
    for m in p.modules.iter().take(p.module_count) {
        print_line(
            rt,
            PLACED,
            m.number as u64,
            m.bus as u64,
            m.wires.0 as u64,
            m.cycles.0,
        )?;
        print_line(rt, START, m.start.0, 0, 0, 0)?;
    }
    Ok(())
}

// The plan of the text that is argument i; one that says nothing where it is refused.
pub(crate) fn show_plan(
    rt: &HostRuntime,
    i: usize,
    w: u32,
    b: u32,
    capture: u32,
) -> io::Result<()> {
    let answer = plan::plan(soc_in(rt, i)?, Wires(w), b, CaptureCycles(capture));
    let refused = number_of(&answer);
    let p = answer.unwrap_or(no_plan());
    print_line(rt, PLAN, w as u64, b as u64, refused, p.time.0)?;
    print_buses(rt, p)?;
    print_placed(rt, p)
}

// What is found where nothing is sought.
fn no_answer() -> BudgetAnswer {
    BudgetAnswer {
        ended: Ended::Unfinished,
        tries: 0,
        plan: None,
    }
}

// What is found of the text that is argument i within a number of tries.
pub(crate) fn show_budget(
    rt: &HostRuntime,
    i: usize,
    w: u32,
    b: u32,
    capture: u32,
    tries: u64,
) -> io::Result<()> {
    let answer = budget::plan_within(soc_in(rt, i)?, Wires(w), b, CaptureCycles(capture), tries);
    print_line(rt, BUDGET, tries, w as u64, b as u64, number_of(&answer))?;
    let found = answer.unwrap_or(no_answer());
    let p = found.plan.unwrap_or(no_plan());
    print_line(
        rt,
        SPENT,
        (found.ended == Ended::Finished) as u64,
        found.tries,
        found.plan.is_some() as u64,
        p.time.0,
    )?;
    print_buses(rt, p)?;
    print_placed(rt, p)
}

// Every W of Table 9 of document 000, 16 to 64 by fours, with limits 2 and 3.
pub(crate) fn show_table_9(rt: &HostRuntime, i: usize) -> io::Result<()> {
    for k in 4..=16 {
        show_plan(rt, i, 4 * k, 2, 1)?;
        show_plan(rt, i, 4 * k, 3, 1)?;
    }
    Ok(())
}
