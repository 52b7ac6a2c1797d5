// Which bytes a text may have (refusal 2), and whether two parts of it are the same bytes.
ghost use Rattle.std.specs.Prelude.{◌≡◌, ◌&&◌, drop, leb};
ghost use Rattle.fields.specs.Bytes.{allowed, bad_byte, same_bytes, lf_next};

fn is_lf_at(text: &[u8], at: usize) -> bool
    ensures { result ≡ lf_next (drop at text.now) }
{
    at < text.len() && text[at] == 10
}

fn is_printable(b: u8) -> bool
    ensures { result ≡ (leb 32 b && leb b 126) }
{
    32 <= b && b <= 126
}

// Whether a byte may stand before the place next.
fn is_allowed(text: &[u8], b: u8, next: usize) -> bool
    ensures { result ≡ allowed b (drop next text.now) }
{
    b == 9 || b == 10 || b == 13 && is_lf_at(text, next) || is_printable(b)
}

// The line of the first byte that a text may not have.
pub fn bad_byte(text: &[u8]) -> Option<usize>
    ensures { result ≡ bad_byte 1 text.now }
{
    let mut line: usize = 1;
    for (i, b) in text.iter().enumerate() {
        // as most bytes of a text are: no line begins behind them
        if is_printable(*b) {
            continue;
        }
        if !is_allowed(text, *b, i + 1) {
            return Some(line);
        }
        if *b == 10 {
            line += 1;
        }
    }
    None
}

// The library's equality, under the name that the definition has.
#[tactic(auto, using(crate::proofs::ByteLaws::same_is, crate::proofs::ByteLaws::same_front))]
pub fn same_bytes(a: &[u8], b: &[u8]) -> bool
    ensures { result ≡ same_bytes a.now b.now }
{
    a == b
}
