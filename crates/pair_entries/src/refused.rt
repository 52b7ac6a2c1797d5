// What an entry itself refuses, of the combined description.
ghost use Rattle.std.specs.Prelude.{◌≡◌};
ghost use Rattle.pair_entries.specs.OfPair.{of_neither};

use pair::{Meant, PairRefusal};
use units::Refusal;

// It is about neither text.
pub(crate) fn of_neither(refusal: Refusal) -> PairRefusal
    ensures { result ≡ of_neither refusal }
{
    PairRefusal {
        refusal,
        meant: Meant::Neither,
    }
}
