// What is printed, and the texts that it is about (document 01, "The SOC text"). Each literal makes its function's proof longer than a row
// of calls does, so all words stand in one literal, and a text is named by its number among the arguments.
ghost use Rattle.std.specs.Prelude.{IfOk};
ghost use Rattle.io.specs.Counts.{IsPrefixLen};

use soc::Soc;
use std::io::Write;
use std::{env, fs, io};
use units::{Fault, Refusal};

// The lines of `print_line`, by their numbers there.
pub const BYTES: usize = 1;

pub const REFUSED: usize = 2;

pub const OPTIONS: usize = 3;

pub const MODULE: usize = 4;

pub const TERMINALS: usize = 5;

pub const CHAIN: usize = 6;

pub const END: usize = 7;

pub const TEST: usize = 8;

pub const INTO: usize = 9;

pub const FORM: usize = 10;

pub const PADDED: usize = 11;

pub const TIMES: usize = 12;

pub const TIME: usize = 13;

pub const WIRES: usize = 14;

pub const LAYOUT: usize = 15;

pub const CHAINS: usize = 16;

pub const PLAN: usize = 17;

pub const BUS: usize = 18;

pub const PLACED: usize = 19;

pub const START: usize = 20;

pub const PLAN_FILE: usize = 21;

pub const READ_BACK: usize = 22;

pub const CHANGED: usize = 23;

pub const WRONG: usize = 24;

pub const INTERNAL: usize = 25;

pub const PAIR: usize = 26;

pub const CAPTURE: usize = 27;

pub const SCANS: usize = 28;

pub const BUDGET: usize = 29;

pub const SPENT: usize = 30;

pub const MEANT: usize = 31;

pub const BOTH_PADDED: usize = 32;

// Stands for a figure that is not given, and is printed as the text has it: -1. All other figures are smaller.
pub const NOT_GIVEN: u64 = 18446744073709551615;

pub(crate) fn print(rt: &HostRuntime, w: &[u8]) -> io::Result<()> {
    io::writer(rt).write_all(w)
}

// Prints a byte, or for # the next of four figures. Answers the number of the figure that is due then.
fn print_byte(rt: &HostRuntime, w: u8, figures: [u64; 4], next: usize) -> io::Result<usize> {
    if w != b'#' {
        print(rt, &[w])?;
        return Ok(next);
    }
    let n = figures[next % 4];
    if n == NOT_GIVEN {
        print(rt, b"-1")?;
    } else {
        print!(rt; "{n}")?;
    }
    Ok(next % 4 + 1)
}

// Prints one of some lines, each of which begins with |.
fn print_part(rt: &HostRuntime, lines: &[u8], line: usize, figures: [u64; 4]) -> io::Result<()> {
    let mut next: usize = 0;
    if let Some(words) = lines.split(|w| *w == b'|').nth(line) {
        for w in words {
            next = print_byte(rt, *w, figures, next)?;
        }
    }
    Ok(())
}

// Prints a line, in which each # stands for the next figure.
pub(crate) fn print_line(
    rt: &HostRuntime,
    line: usize,
    a: u64,
    b: u64,
    c: u64,
    d: u64,
) -> io::Result<()> {
    let lines = b"| # bytes: \
        |refused # line #\n\
        | power # xy #\n\
        | module #: planned # level # inputs #\
        | outputs # bidirs # x # y # chains\
        | #\
        |\n\
        |  test: scan # tam # patterns # power #\n\
        | into # bytes: refused #, written #, kept up to #\n\
        | the written form is the text itself #, and so is its own #\n\
        |padded to # bytes, the first of them #: \
        |module #\n\
        | width #: refused #, test 1 takes #, the module #\
        | on wires #\n\
        |module # test # width #: refused #\n\
        | flip-flops # input cells # output cells # bidirectional cells #\
        |wires # limit #: refused #, time #\n\
        | bus # width # busy #\n\
        | module # bus # wires # cycles #\
        | start #\n\
        |plan file of wires # limit #\n\
        | a file of # bytes: refused #, as by hand #\n\
        | byte # as # says another plan\n\
        | says something else than it holds\n\
        |, internal chain in #\n\
        |refused # line # text #, time #\n\
        |capture cycles #\n\
        | si # so # cycles #\n\
        |tries # wires # limit #: refused #\n\
        | finished # spent #, a plan is known #, time #\n\
        |text #,\
        |padded to # and # bytes: ";
    print_part(rt, lines, line, [a, b, c, d])
}

// Argument i, or none of its bytes where there are fewer.
fn argument(rt: &HostRuntime, i: usize) -> io::Result<String> {
    match env::args(rt)?.nth(i) {
        Some(path) => Ok(path),
        None => Ok(String::new(rt.alloc())),
    }
}

// Reads the text that is argument i to the front of a buffer and prints its name and length, so that one that is not there is seen.
pub(crate) fn read_text(rt: &HostRuntime, i: usize, buf: &mut [u8]) -> io::Result<usize>
    ensures { IfOk result (λ k. IsPrefixLen k buf.new) }
{
    let path = argument(rt, i)?;
    print(rt, path.as_bytes())?;
    let mut file = fs::open(rt, path.as_str())?;
    let k = full_input::read_full(&mut file, &mut *buf)?;
    print_line(rt, BYTES, k as u64, 0, 0, 0)?;
    Ok(k)
}

// A fault's number in the documents' table.
pub(crate) fn number(f: Fault) -> u64 {
    u64::from(u8::from(f))
}

// The number of an answer's refusal, or 0.
pub(crate) fn number_of<T>(answer: &Result<T, Refusal>) -> u64 {
    match answer {
        Ok(_) => 0,
        Err(r) => number(r.fault),
    }
}

// The record of a text; one that says nothing where it is refused.
pub(crate) fn record_of(text: &[u8]) -> Soc {
    text::read_soc(text).unwrap_or(soc::no_soc())
}

// The same of the text that is argument i.
pub(crate) fn soc_in(rt: &HostRuntime, i: usize) -> io::Result<Soc> {
    let mut buffer = [0u8; 65536];
    let n = read_text(rt, i, &mut buffer)?;
    Ok(record_of(&buffer[..n]))
}
