// Lent buffers, and what a writer leaves in them (document 01, "Refusal numbers": "lent buffers keep every byte").
ghost use Rattle.io.specs.Counts.{IsPrefixLen};

// What every byte of a buffer is before it is lent to a writer.
pub const BEFORE: u8 = 170;

// n, or the slice's length where that is less: so many bytes can be taken from its front.
pub(crate) fn at_most(n: usize, s: &[u8]) -> usize
    ensures { IsPrefixLen result s.now }
{
    n.min(s.len())
}

// The place of the first byte from a place on that is not as before, or the end.
pub(crate) fn kept_to(s: &[u8], from: usize) -> usize {
    for (i, b) in s.iter().enumerate().skip(from) {
        if *b != BEFORE {
            return i;
        }
    }
    from.max(s.len())
}
