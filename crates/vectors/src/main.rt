// Runs the product on the texts in data/ and prints what it finds: texts read and written, layouts and times, plans, plan files, pairs
// (document 01, "The SOC text", "The wrapper rule", "The plan", "The plan file"; document 02, items 1, 3, 5 and 7). The file args names the
// texts, and stdout is what must be printed.
#![tactic(auto)]

use pairs::{show_asked, show_lines, show_padded_pair, show_pair, show_written};
use plan_files::{show_changes, show_longest, show_old, show_part, show_plan_file};
use plans::{show_budget, show_plan, show_table_9};
use print::{CAPTURE, print_line};
use soc::TEXT_MAX;
use std::io;
use texts::{show_arguments, show_padded};
use wrappers::{show_layout, show_times};

mod lent;
mod pairs;
mod plan_files;
mod plans;
mod print;
mod records;
mod texts;
mod wrappers;

// The texts that questions are asked about, by their numbers among the arguments.
const T1: usize = 1;

const D695: usize = 2;

const CORE_A: usize = 3;

const CORE_6: usize = 4;

const RISING: usize = 5;

const SMALL: usize = 6;

const LARGEST: usize = 7;

const TWO_COPIES: usize = 8;

const TWELVE: usize = 9;

const THIRTEEN: usize = 10;

const NONE: usize = 11;

const REFUSED: usize = 12;

const FORTY: usize = 18;

const D695_OVERLAY: usize = 85;

const SPACED: usize = 86;

const MODULE_39: usize = 87;

const BLOCKS_40: usize = 88;

const FALLING: usize = 89;

const BLOCK_40: usize = 90;

const NO_BLOCK: usize = 91;

const OTHER_LEVEL: usize = 92;

const BAD_BYTE: usize = 107;

const KEYWORD: usize = 108;

const PINS: usize = 109;

const OTHER_NAME: usize = 110;

const OTHER_OPTIONS: usize = 111;

const NOT_THERE: usize = 112;

const NONE_PLANNED: usize = 113;

const ONE_MORE: usize = 114;

// Beside the texts that the arguments name: the longest, one byte more, and that with a bad byte, which is refused for its length too.
fn show_texts(rt: &HostRuntime) -> io::Result<()> {
    show_arguments(rt)?;
    show_padded(rt, T1, b'S', TEXT_MAX)?;
    show_padded(rt, T1, b'S', TEXT_MAX + 1)?;
    show_padded(rt, T1, 1, TEXT_MAX + 1)
}

// Core A and Core 6 of p93791 of document 000, a module of d695, a core whose figure rises with the width, small cores, the largest core,
// the SOC itself, no record.
fn show_wrappers(rt: &HostRuntime) -> io::Result<()> {
    show_times(rt, CORE_A, 1, 0, 6, 1)?;
    show_layout(rt, CORE_A, 1, 1, 4, 1)?;
    show_layout(rt, CORE_A, 1, 2, 4, 1)?;
    show_layout(rt, CORE_A, 1, 3, 4, 1)?;
    show_layout(rt, CORE_A, 2, 1, 4, 1)?;
    show_layout(rt, CORE_A, 1, 1, 65, 1)?;
    show_times(rt, CORE_6, 1, 1, 66, 1)?;
    show_layout(rt, CORE_6, 1, 1, 2, 1)?;
    show_layout(rt, CORE_6, 1, 1, 10, 1)?;
    show_layout(rt, D695, 5, 1, 9, 1)?;
    show_times(rt, RISING, 1, 9, 15, 1)?;
    show_times(rt, SMALL, 1, 1, 2, 1)?;
    show_times(rt, SMALL, 2, 1, 4, 1)?;
    show_times(rt, SMALL, 3, 1, 2, 1)?;
    show_times(rt, SMALL, 4, 1, 2, 1)?;
    show_times(rt, LARGEST, 1, 1, 3, 1)?;
    show_times(rt, LARGEST, 1, 64, 64, 1)?;
    show_times(rt, LARGEST, 0, 64, 64, 1)?;
    show_times(rt, REFUSED, 0, 1, 1, 1)
}

// d695 as in document 000, the limits of W and B, document 01's t1 and two copies of its module 1, as many planned modules as may be, too
// many, none, and no record.
fn show_plans(rt: &HostRuntime) -> io::Result<()> {
    show_table_9(rt, D695)?;
    show_plan(rt, D695, 65, 3, 1)?;
    show_plan(rt, D695, 0, 3, 1)?;
    show_plan(rt, D695, 64, 4, 1)?;
    show_plan(rt, D695, 64, 0, 1)?;
    show_plan(rt, T1, 4, 1, 1)?;
    show_plan(rt, T1, 1, 3, 1)?;
    show_plan(rt, T1, 4, 3, 1)?;
    show_plan(rt, T1, 4, 2, 1)?;
    show_plan(rt, TWO_COPIES, 2, 2, 1)?;
    show_plan(rt, TWELVE, 24, 3, 1)?;
    show_plan(rt, THIRTEEN, 24, 3, 1)?;
    show_plan(rt, NONE, 24, 3, 1)?;
    show_plan(rt, REFUSED, 0, 0, 1)
}

// Buffers that are too short, just long enough and longer; a bad record; two modules on one bus; the longest file; the file by hand, in
// parts and with other bytes; one of the old form; one with as many cycles as there may be, and one with a cycle more.
fn show_plan_files(rt: &HostRuntime) -> io::Result<()> {
    show_plan_file(rt, T1, 4, 2, 2, 79)?;
    show_plan_file(rt, T1, 4, 2, 2, 80)?;
    show_plan_file(rt, T1, 4, 2, 2, 300)?;
    show_plan_file(rt, T1, 4, 2, 9, 300)?;
    show_plan_file(rt, T1, 4, 1, 1, 300)?;
    show_plan_file(rt, TWELVE, 24, 3, 3, 300)?;
    show_part(rt, 0, 80)?;
    show_part(rt, 0, 79)?;
    show_part(rt, 20, 80)?;
    show_part(rt, 0, 16)?;
    show_part(rt, 0, 15)?;
    show_part(rt, 0, 0)?;
    show_old(rt)?;
    show_longest(rt, 0xe0)?;
    show_longest(rt, 0xe1)?;
    show_changes(rt)
}

// d695 with two cores changed; CRLF, tabs and blank lines inside a block, and no end of the last line; one block with the highest number,
// and all blocks that there can be. Then refusals: of the base before the overlay's, of the overlay, 15, and what the planner refuses.
fn show_pairs(rt: &HostRuntime) -> io::Result<()> {
    show_pair(rt, D695, D695_OVERLAY, 32, 3, 1)?;
    show_pair(rt, T1, SPACED, 4, 2, 1)?;
    show_lines(rt, T1, SPACED, 1)?;
    show_lines(rt, T1, SPACED, 2)?;
    show_pair(rt, FORTY, MODULE_39, 2, 1, 1)?;
    show_lines(rt, FORTY, MODULE_39, 39)?;
    show_pair(rt, FORTY, BLOCKS_40, 2, 1, 1)?;
    show_pair(rt, REFUSED, FALLING, 0, 0, 1)?;
    show_pair(rt, T1, FALLING, 0, 0, 1)?;
    show_pair(rt, T1, BLOCK_40, 0, 0, 1)?;
    show_pair(rt, T1, NO_BLOCK, 0, 0, 1)?;
    show_pair(rt, T1, BAD_BYTE, 0, 0, 1)?;
    show_pair(rt, T1, KEYWORD, 0, 0, 1)?;
    show_pair(rt, T1, PINS, 0, 0, 1)?;
    show_pair(rt, T1, OTHER_LEVEL, 0, 0, 1)?;
    show_pair(rt, T1, OTHER_NAME, 0, 0, 1)?;
    show_pair(rt, T1, OTHER_OPTIONS, 0, 0, 1)?;
    show_pair(rt, T1, NOT_THERE, 0, 0, 1)?;
    show_pair(rt, T1, SPACED, 0, 0, 1)?;
    show_pair(rt, T1, SPACED, 4, 4, 1)?;
    show_pair(rt, T1, NONE_PLANNED, 4, 2, 1)?;
    show_lines(rt, T1, FALLING, 1)?;
    show_lines(rt, T1, SPACED, 3)
}

// Both texts as long as may be, the overlay a byte longer, both. Capture cycles, and 16 behind 8 and before 9; a module more than may be
// planned, which the overlay makes one. Of a module and a test: answered; 15, 7, 16, 13, each with all that come behind it; 13 of the test
// alone. The written form in a buffer a byte too short, just long enough and longer; and nothing of it where the pair is refused.
fn show_pair_limits(rt: &HostRuntime) -> io::Result<()> {
    show_padded_pair(rt, T1, SPACED, TEXT_MAX, TEXT_MAX)?;
    show_padded_pair(rt, T1, SPACED, TEXT_MAX, TEXT_MAX + 1)?;
    show_padded_pair(rt, T1, SPACED, TEXT_MAX + 1, TEXT_MAX + 1)?;
    show_pair(rt, T1, SPACED, 4, 2, 4)?;
    show_pair(rt, T1, SPACED, 4, 2, 5)?;
    show_pair(rt, T1, SPACED, 4, 4, 0)?;
    show_pair(rt, T1, NONE_PLANNED, 4, 2, 0)?;
    show_pair(rt, TWELVE, ONE_MORE, 24, 3, 1)?;
    show_asked(rt, T1, SPACED, 1, 1, 4, 2)?;
    show_asked(rt, T1, NOT_THERE, 3, 1, 65, 0)?;
    show_asked(rt, T1, SPACED, 3, 1, 65, 0)?;
    show_asked(rt, T1, SPACED, 3, 1, 64, 0)?;
    show_asked(rt, T1, SPACED, 3, 1, 64, 5)?;
    show_asked(rt, T1, SPACED, 3, 1, 64, 4)?;
    show_asked(rt, T1, SPACED, 2, 2, 4, 1)?;
    show_written(rt, T1, SPACED, 387)?;
    show_written(rt, T1, SPACED, 388)?;
    show_written(rt, T1, SPACED, 400)?;
    show_written(rt, T1, FALLING, 400)
}

// With c capture cycles (document 02, item 5), of which 0 and 5 are 16: times, at a width that is 7 and of a module that is 13; the
// largest core; layouts, one of them at the wires that the plan below names; plans, also with a limit that is 8 and of no planned module.
fn show_captures(rt: &HostRuntime, c: u32) -> io::Result<()> {
    print_line(rt, CAPTURE, c as u64, 0, 0, 0)?;
    show_times(rt, CORE_A, 1, 4, 4, c)?;
    show_times(rt, CORE_A, 1, 65, 65, c)?;
    show_times(rt, CORE_A, 2, 4, 4, c)?;
    show_times(rt, LARGEST, 1, 1, 1, c)?;
    show_layout(rt, CORE_A, 1, 1, 4, c)?;
    show_layout(rt, D695, 5, 1, 18, c)?;
    show_plan(rt, T1, 4, 2, c)?;
    show_plan(rt, D695, 32, 3, c)?;
    show_plan(rt, D695, 32, 4, c)?;
    show_plan(rt, NONE, 24, 3, c)
}

// Within a number of tries (document 02, item 7): d695 with as many tries as the search needs, and one fewer; t1 with as many as there are
// modules, and one fewer, which leaves no plan; 13 modules and eight buses; and the refusals in their order, with all that comes behind.
fn show_budgets(rt: &HostRuntime) -> io::Result<()> {
    show_budget(rt, D695, 64, 3, 1, 328463)?;
    show_budget(rt, D695, 64, 3, 1, 328462)?;
    show_budget(rt, T1, 4, 2, 1, 2)?;
    show_budget(rt, T1, 4, 2, 1, 1)?;
    show_budget(rt, T1, 4, 8, 4, 1099511627776)?;
    show_budget(rt, THIRTEEN, 24, 8, 1, 1000)?;
    show_budget(rt, REFUSED, 0, 0, 0, 0)?;
    show_budget(rt, NONE, 65, 9, 0, 0)?;
    show_budget(rt, NONE, 64, 9, 0, 0)?;
    show_budget(rt, NONE, 64, 8, 0, 0)?;
    show_budget(rt, NONE, 64, 8, 1, 0)?;
    show_budget(rt, T1, 4, 2, 1, 0)?;
    show_budget(rt, T1, 4, 2, 1, 1099511627777)
}

fn main(rt: HostRuntime) -> io::Result<()> {
    show_texts(&rt)?;
    show_wrappers(&rt)?;
    show_plans(&rt)?;
    show_plan_files(&rt)?;
    show_pairs(&rt)?;
    show_pair_limits(&rt)?;
    show_captures(&rt, 0)?;
    show_captures(&rt, 2)?;
    show_captures(&rt, 4)?;
    show_captures(&rt, 5)?;
    show_budgets(&rt)
}
