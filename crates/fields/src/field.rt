// The fields of a line: parted by spaces and tabs, which count for nothing at its ends.
ghost use Rattle.std.specs.Prelude.{◌≡◌, ◌+◌, drop};
ghost use Rattle.fields.specs.Fields.{gap, gaps, run, next_field, fields_of, blank};

fn is_gap(b: u8) -> bool
    ensures { result ≡ gap b }
{
    b == 32 || b == 9
}

fn past_gaps(l: &[u8], from: usize) -> usize
    ensures { result ≡ from + gaps (drop from l.now) }
{
    for i in from..l.len() {
        if !is_gap(l[i]) {
            return i;
        }
    }
    from.max(l.len())
}

fn past_run(l: &[u8], from: usize) -> usize
    ensures { result ≡ from + run (drop from l.now) }
{
    for i in from..l.len() {
        if is_gap(l[i]) {
            return i;
        }
    }
    from.max(l.len())
}

// The next field: where it begins and where it ends.
pub fn next_field(l: &[u8], from: usize) -> Option<(usize, usize)>
    ensures { result ≡ next_field l.now from }
{
    let a = past_gaps(l, from);
    if l.len() <= a {
        return None;
    }
    Some((a, past_run(l, a)))
}

// Whether nothing but spaces and tabs stands at or behind a place.
#[tactic(auto, using(crate::proofs::FieldLaws::none_left))]
pub fn is_blank(l: &[u8], from: usize) -> bool
    ensures { result ≡ blank (fields_of (drop from l.now)) }
{
    next_field(l, from).is_none()
}
