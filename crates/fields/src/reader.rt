// Fields read left to right at a place of a line: a keyword that is due, a number within its limits. An answer is what was read
// and the place behind it; or the fault.
ghost use Rattle.std.specs.Prelude.{◌≡◌, ◌&&◌, leb};
ghost use Rattle.fields.specs.Readers.{word_answer, number_answer, key_number_answer};

use units::Fault;

// The keyword w.
pub fn past_word(l: &[u8], at: usize, w: &[u8]) -> Result<usize, Fault>
    ensures { result ≡ word_answer l.now at w.now }
{
    let Some((from, to)) = super::next_field(l, at) else {
        return Err(Fault::WrongForm); // no field is left
    };
    if !super::same_bytes(&l[from..to], w) {
        return Err(Fault::WrongForm); // another keyword
    }
    Ok(to)
}

fn is_within(v: u64, low: u64, high: u64) -> bool
    ensures { result ≡ (leb low v && leb v high) }
{
    low <= v && v <= high
}

// A number from low to high, both below 4,294,967,296.
pub fn figure_at(l: &[u8], at: usize, low: u32, high: u32) -> Result<(u64, usize), Fault>
    ensures { result ≡ number_answer l.now at low high }
{
    let Some((a, e)) = super::next_field(l, at) else {
        return Err(Fault::WrongForm);
    };
    let Some(v) = super::number_of(&l[a..e]) else {
        return Err(Fault::WrongFigure);
    };
    if !is_within(v, low as u64, high as u64) {
        return Err(Fault::WrongFigure);
    }
    Ok((v, e))
}

// The keyword w, and then a number from low to high.
pub fn key_figure(l: &[u8], at: usize, w: &[u8], low: u32, high: u32) -> Result<(u64, usize), Fault>
    ensures { result ≡ key_number_answer l.now at w.now low high }
{
    let e = past_word(l, at, w)?;
    figure_at(l, e, low, high)
}
