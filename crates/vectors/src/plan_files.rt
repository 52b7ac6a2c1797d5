// Writes plan files and reads them back (document 01, "The plan file"; document 02, item 1), and tries a file written out by hand: in
// parts, and with each byte changed in turn; the same plan's file as it was before a module's start stood in it; and the file of a module
// with as many cycles as there may be (document 02, item 5).
use super::lent::{BEFORE, at_most, kept_to};
use super::print::{
    CHANGED, INTO, PLAN_FILE, READ_BACK, WRONG, number, number_of, print_line, soc_in,
};
use plan_record::{BusPlan, no_plan};
use std::io;
use units::{CaptureCycles, Wires};

// The file of t1's plan for 4 wires and limit 2, by hand: module 1 on bus 1, module 2 on bus 2, the two buses, the trailer.
fn by_hand() -> [u8; 80] {
    *b"\x01\x01\x01\0\x41\0\0\0\0\0\0\0\0\0\0\0\0\0\0\0\
       \x02\x02\x03\0\x09\0\0\0\0\0\0\0\0\0\0\0\0\0\0\0\
       \x01\0\0\0\x41\0\0\0\0\0\0\0\
       \x03\0\0\0\x09\0\0\0\0\0\0\0\
       \0\0\x28\0\x04\x02\x02\x02\x41\0\0\0\0\0\0\0"
}

// The number of a file's refusal, or 0. A file that is accepted must be the file of the plan that it says.
fn refusal_of(rt: &HostRuntime, file: &[u8]) -> io::Result<u64> {
    let p = match plan_file::read_plan(file) {
        Ok(p) => p,
        Err(r) => return Ok(number(r.fault)),
    };
    let mut buffer = [0u8; 300];
    let len = plan_file::write_plan(p, &mut buffer).unwrap_or(0);
    let n = at_most(len, &buffer);
    if !fields::same_bytes(file, &buffer[..n]) {
        print_line(rt, WRONG, 0, 0, 0, 0)?;
    }
    Ok(0)
}

// Reads the first bytes of a buffer as a file.
fn show_file(rt: &HostRuntime, buf: &[u8], len: usize) -> io::Result<()> {
    let n = at_most(len, buf);
    let hand = by_hand();
    let same = fields::same_bytes(&hand, &buf[..n]);
    print_line(
        rt,
        READ_BACK,
        n as u64,
        refusal_of(rt, &buf[..n])?,
        same as u64,
        0,
    )
}

// Lends the writer the first n bytes of a buffer, and reads back what it wrote.
fn show_into(rt: &HostRuntime, p: BusPlan, buf: &mut [u8], n: usize) -> io::Result<()> {
    let k = at_most(n, &*buf);
    let written = plan_file::write_plan(p, &mut buf[..k]);
    let refused = number_of(&written);
    let len = written.unwrap_or(0);
    let end = kept_to(&*buf, len);
    print_line(rt, INTO, k as u64, refused, len as u64, end as u64)?;
    show_file(rt, &*buf, len)
}

// The file of the plan of the text that is argument i, with n bytes lent. A limit that is not b makes the plan's record another.
pub(crate) fn show_plan_file(
    rt: &HostRuntime,
    i: usize,
    w: u32,
    b: u32,
    limit: u32,
    n: usize,
) -> io::Result<()> {
    let answer = plan::plan(soc_in(rt, i)?, Wires(w), b, CaptureCycles(1));
    let mut p = answer.unwrap_or(no_plan());
    p.limit = limit;
    print_line(rt, PLAN_FILE, w as u64, limit as u64, 0, 0)?;
    let mut buffer = [BEFORE; 300];
    show_into(rt, p, &mut buffer, n)
}

// The first n bytes of the file by hand from a place on, as a file.
pub(crate) fn show_part(rt: &HostRuntime, from: usize, n: usize) -> io::Result<()> {
    let hand = by_hand();
    let k = at_most(from, &hand);
    show_file(rt, &hand[k..], n)
}

// The same plan's file of 12-byte records.
pub(crate) fn show_old(rt: &HostRuntime) -> io::Result<()> {
    let old = b"\x01\x01\x01\0\x41\0\0\0\0\0\0\0\
       \x02\x02\x03\0\x09\0\0\0\0\0\0\0\
       \x01\0\0\0\x41\0\0\0\0\0\0\0\
       \x03\0\0\0\x09\0\0\0\0\0\0\0\
       \0\0\x18\0\x04\x02\x02\x02\x41\0\0\0\0\0\0\0";
    show_file(rt, old, 64)
}

// The file of one module that takes 37,383,663,779,808 cycles, with another lowest byte of them.
pub(crate) fn show_longest(rt: &HostRuntime, low: u8) -> io::Result<()> {
    let mut file = *b"\x01\x01\x01\0\xe0\xff\xff\x0f\0\x22\0\0\0\0\0\0\0\0\0\0\
       \x01\0\0\0\xe0\xff\xff\x0f\0\x22\0\0\
       \0\0\x14\0\x01\x01\x01\x01\xe0\xff\xff\x0f\0\x22\0\0";
    file[4] = low;
    file[24] = low;
    file[40] = low;
    show_file(rt, &file, 48)
}

// The number of the refusal of the file by hand with another byte at a place; 1 where it has that byte.
fn refusal_with(rt: &HostRuntime, at: usize, b: u8) -> io::Result<u64> {
    let mut file = by_hand();
    if 80 <= at || file[at] == b {
        return Ok(1);
    }
    file[at] = b;
    refusal_of(rt, &file)
}

// Which other values of a byte of the file by hand are accepted.
fn show_changed(rt: &HostRuntime, at: usize) -> io::Result<()> {
    for b in 0..=u8::MAX {
        if refusal_with(rt, at, b)? == 0 {
            print_line(rt, CHANGED, at as u64, b as u64, 0, 0)?;
        }
    }
    Ok(())
}

// The same of each of its bytes.
pub(crate) fn show_changes(rt: &HostRuntime) -> io::Result<()> {
    for at in 0..80 {
        show_changed(rt, at)?;
    }
    Ok(())
}
