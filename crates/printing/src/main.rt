// The printing program: standard input to a printed plan (document 01, "The printing program"). Reading and writing are all that it does; what is
// printed is the promise of `listing`.
#![tactic(auto)]

use listing::LISTING_MAX;
use std::io;
use std::io::Write;

// Behind a first line of at most 32 bytes these are more than a SOC text may have, so whatever follows, the answer is the same.
const INPUT_MAX: usize = 65536;

fn main(rt: HostRuntime) -> io::Result<()> {
    let mut input = [0u8; INPUT_MAX];
    let n = full_input::read_full(&mut rt.reader(), &mut input)?;
    let mut out = [0u8; LISTING_MAX];
    match listing::listing(&input[..n], &mut out) {
        Ok(len) if len <= LISTING_MAX => io::writer(&rt).write_all(&out[..len]),
        _ => Ok(()),
    }
}
