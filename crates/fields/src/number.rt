// Decimal numbers without leading zeros, however long: over 4,294,967,296 a number counts as that, which is over every limit.
ghost use Rattle.std.specs.Prelude.{◌≡◌, ◌-◌, ◌≤◌};
ghost use Rattle.fields.specs.Numbers.{cut, decimal_of, digit};

const CAP: u64 = 4294967296;

fn is_digit(b: u8) -> bool
    ensures { result ≡ digit b }
{
    48 <= b && b <= 57
}

fn value_of(b: u8) -> u64
    requires { 48 ≤ b }
    ensures { result ≡ b - 48 }
{
    (b - 48) as u64
}

pub fn number_of(f: &[u8]) -> Option<u64>
    ensures { result ≡ cut (decimal_of f.now) }
{
    if f.len() == 0 {
        return None;
    }
    if f[0] == 48 && 1 < f.len() {
        return None;
    }
    let mut v: u64 = 0;
    for b in f {
        if !is_digit(*b) {
            return None;
        }
        v = (v * 10 + value_of(*b)).min(CAP);
    }
    Some(v)
}
