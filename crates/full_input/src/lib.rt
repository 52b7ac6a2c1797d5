// Input read to its end or to the end of a buffer, for the programs: a SOC text, or what the printing program is given.
#![tactic(auto)]

ghost use Rattle.std.specs.Io.{ReadsAtMost};

use std::io;
use std::io::Read;

// How many bytes were read to the front of the buffer. A `while` that counts them, since std has no such call: `read_exact` refuses an
// input that ends before the buffer, and `read_to_end` allocates.
pub fn read_full<R: Read>(from: &mut R, buf: &mut [u8]) -> io::Result<usize>
    ensures { ReadsAtMost result buf.new }
{
    let mut n: usize = 0;
    while n < buf.len() {
        let k = from.read(&mut buf[n..])?;
        if k == 0 {
            return Ok(n);
        }
        n += k;
    }
    Ok(n)
}
