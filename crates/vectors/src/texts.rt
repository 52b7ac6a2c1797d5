// Reads texts and writes them (document 01, "The SOC text"). For each text: its refusal, or every figure of its record; what the writer
// answers with a long buffer, with one of just the written form's length and with one a byte shorter; whether the written form is the text
// itself, and whether it is its own written form; and the written form where it is not the text.
ghost use Rattle.io.specs.Counts.{IsPrefixLen};

use super::lent::{BEFORE, at_most, kept_to};
use super::print::{
    FORM, INTO, PADDED, REFUSED, number, number_of, print, print_line, read_text, record_of,
};
use super::records::print_soc;
use soc::Soc;
use std::{env, io};

// Lends the writer the first n bytes of a buffer, and answers how long the written form is.
fn show_into(rt: &HostRuntime, s: Soc, buf: &mut [u8], n: usize) -> io::Result<usize> {
    let k = at_most(n, &*buf);
    let written = text::write_soc(s, &mut buf[..k]);
    let refused = number_of(&written);
    let len = written.unwrap_or(0);
    let end = kept_to(&*buf, len);
    print_line(rt, INTO, k as u64, refused, len as u64, end as u64)?;
    Ok(len)
}

fn show_lent(rt: &HostRuntime, s: Soc, n: usize) -> io::Result<usize> {
    let mut buffer = [BEFORE; 65536];
    show_into(rt, s, &mut buffer, n)
}

// Puts the written form of a text's record to the front of a buffer and answers how long it is.
fn put_form(text: &[u8], buf: &mut [u8]) -> usize
    ensures { IsPrefixLen result buf.new }
{
    let len = text::write_soc(record_of(text), &mut *buf).unwrap_or(0);
    at_most(len, &*buf)
}

fn show_form(rt: &HostRuntime, text: &[u8]) -> io::Result<()> {
    let mut form = [0u8; 65536];
    let n = put_form(text, &mut form);
    let mut again = [0u8; 65536];
    let k = put_form(&form[..n], &mut again);
    let same = fields::same_bytes(text, &form[..n]);
    let own = fields::same_bytes(&form[..n], &again[..k]);
    print_line(rt, FORM, same as u64, own as u64, 0, 0)?;
    if !same {
        print(rt, &form[..n])?;
    }
    Ok(())
}

// The last difference would wrap only if nothing were written, and then show a buffer that is not shorter.
fn show_written(rt: &HostRuntime, s: Soc) -> io::Result<()> {
    print_soc(rt, s)?;
    let len = show_lent(rt, s, 65536)?;
    show_lent(rt, s, len)?;
    show_lent(rt, s, std::num::wrapping_sub_usize(len, 1))?;
    Ok(())
}

fn show_text(rt: &HostRuntime, text: &[u8]) -> io::Result<()> {
    match text::read_soc(text) {
        Ok(s) => {
            show_written(rt, s)?;
            show_form(rt, text)
        }
        Err(r) => print_line(rt, REFUSED, number(r.fault), r.line as u64, 0, 0),
    }
}

// The texts that the arguments name. The buffer has more bytes than a text may have.
pub(crate) fn show_arguments(rt: &HostRuntime) -> io::Result<()> {
    let n = env::args(rt)?.count();
    for i in 1..n {
        let mut buffer = [0u8; 65536];
        let k = read_text(rt, i, &mut buffer)?;
        show_text(rt, &buffer[..k])?;
    }
    Ok(())
}

// A text with blank lines behind it, n bytes in all, and with a first byte of its own.
pub(crate) fn show_padded(rt: &HostRuntime, i: usize, first: u8, n: usize) -> io::Result<()> {
    let mut buffer = [b'\n'; 65536];
    read_text(rt, i, &mut buffer)?;
    buffer[0] = first;
    print_line(rt, PADDED, n as u64, first as u64, 0, 0)?;
    let k = at_most(n, &buffer);
    show_text(rt, &buffer[..k])
}
