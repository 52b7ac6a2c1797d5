// The written form of a pair's combined description.
ghost use Rattle.std.specs.Prelude.{◌≡◌};
ghost use Rattle.text_writer.specs.WrittenSoc.{write_answer};
ghost use Rattle.pair_entries.specs.OfPair.{of_pair};
ghost use Rattle.pair_entries.specs.WrittenPair.{write_pair, leaves_of, write_pair_leaves};

use super::refused::of_neither;
use pair::{PairRead, PairRefusal, read_pair};

// What is written of a pair that was read; a refused one writes nothing.
#[tactic(auto, unfolding(crate::specs::OfPair::of_pair, crate::specs::WrittenPair::leaves_of))]
fn written(pair: Result<PairRead, PairRefusal>, into: &mut [u8]) -> Result<usize, PairRefusal>
    ensures { (result ≡ of_pair pair λ s. write_answer s into.old) × (into.new ≡ leaves_of pair into.old) }
{
    match pair {
        Ok(pair) => match text_writer::write_soc(pair.soc, into) {
            Ok(n) => Ok(n),
            Err(refusal) => Err(of_neither(refusal)),
        },
        Err(r) => Err(r),
    }
}

#[tactic(auto, unfolding(crate::specs::WrittenPair::write_pair, crate::specs::WrittenPair::write_pair_leaves))]
pub fn write_pair(base: &[u8], overlay: &[u8], into: &mut [u8]) -> Result<usize, PairRefusal>
    ensures { (result ≡ write_pair base.now overlay.now into.old)
        × (into.new ≡ write_pair_leaves base.now overlay.now into.old) }
{
    written(read_pair(base, overlay), into)
}
