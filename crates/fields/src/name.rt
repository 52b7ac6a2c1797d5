// Names: 1 to 32 letters, digits, `_` or `-`.
ghost use Rattle.std.specs.Prelude.{◌≡◌};
ghost use Rattle.fields.specs.Names.{name_byte, is_name};

pub const NAME_MAX: usize = 32;

fn is_name_byte(b: u8) -> bool
    ensures { result ≡ name_byte b }
{
    b == 45 || b == 95 || 48 <= b && b <= 57 || 65 <= b && b <= 90 || 97 <= b && b <= 122
}

pub fn is_name(f: &[u8]) -> bool
    ensures { result ≡ is_name f.now }
{
    1 <= f.len() && f.len() <= NAME_MAX && f.iter().all(|b| is_name_byte(*b))
}
