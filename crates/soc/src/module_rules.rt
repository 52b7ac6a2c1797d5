// The rules of one module of a record: its limits, its level against the module before it, its spare places (refusal 14).
ghost use Rattle.std.specs.Prelude.{◌≡◌};
ghost use Rattle.soc.specs.Limits.{position_max};
ghost use Rattle.units.specs.Places.{all_of};
ghost use Rattle.soc.specs.Rules.{up_to, good_length, spare_length, good_position, level_rule, good_terminals, good_chains, good_tests, good_module, spare_module};

use super::test_rules::{are_good_tests, are_spare_tests};
use super::{
    CHAINS_MAX, LENGTH_MAX, LEVEL_MAX, Module, NOT_GIVEN, POSITION_MAX, TERMINALS_MAX, TESTS_MAX,
};
use units::FlipFlops;

#[tactic(auto, unfolding(crate::specs::Rules::good_position))]
fn is_good_position(option: bool, x: i32, y: i32) -> bool
    ensures { result ≡ good_position option x y }
{
    let limits = 0..=POSITION_MAX;
    x == NOT_GIVEN && y == NOT_GIVEN || option && limits.contains(&x) && limits.contains(&y)
}

fn are_good_lengths(lengths: &[FlipFlops]) -> bool
    ensures { result ≡ all_of good_length lengths.now }
{
    lengths.iter().all(|f| (1..=LENGTH_MAX).contains(&f.0))
}

fn are_spare_lengths(lengths: &[FlipFlops]) -> bool
    ensures { result ≡ all_of spare_length lengths.now }
{
    lengths.iter().all(|f| f.0 == 0)
}

// Module 0 has level 0; another has a level from 1 to the previous module's level plus 1.
#[tactic(auto, unfolding(crate::specs::Rules::level_rule))]
pub fn keeps_level_rule(m: usize, last: u32, v: u32) -> bool
    ensures { result ≡ level_rule m last v }
{
    if m == 0 {
        v == 0
    } else {
        1 <= v && v - 1 <= last
    }
}

impl Module {
    #[tactic(auto, unfolding(crate::specs::Rules::good_terminals))]
    fn has_good_terminals(&self) -> bool
        ensures { result ≡ good_terminals self.now }
    {
        self.inputs <= TERMINALS_MAX
            && self.outputs <= TERMINALS_MAX
            && self.bidirs <= TERMINALS_MAX
    }

    #[tactic(auto, unfolding(crate::specs::Rules::good_chains))]
    fn has_good_chains(&self) -> bool
        ensures { result ≡ good_chains self.now }
    {
        let n = self.chain_count;
        n <= CHAINS_MAX
            && are_good_lengths(&self.chains[..n])
            && are_spare_lengths(&self.chains[n..])
    }

    #[tactic(auto, unfolding(crate::specs::Rules::good_tests))]
    fn has_good_tests(&self, m: usize, power: bool) -> bool
        ensures { result ≡ good_tests m power self.now }
    {
        let n = self.test_count;
        n <= TESTS_MAX
            && are_good_tests(m, power, &self.tests[..n])
            && are_spare_tests(&self.tests[n..])
    }

    #[tactic(auto, unfolding(crate::specs::Rules::good_module))]
    pub(crate) fn is_good(&self, power: bool, xy: bool, m: usize, last: u32) -> bool
        ensures { result ≡ good_module power xy m last self.now }
    {
        self.level <= LEVEL_MAX
            && keeps_level_rule(m, last, self.level)
            && self.has_good_terminals()
            && self.has_good_chains()
            && is_good_position(xy, self.x, self.y)
            && self.has_good_tests(m, power)
    }

    #[tactic(auto, unfolding(crate::specs::Rules::spare_module))]
    pub(crate) fn is_spare(&self) -> bool
        ensures { result ≡ spare_module self.now }
    {
        self.level == 0
            && self.inputs == 0
            && self.outputs == 0
            && self.bidirs == 0
            && self.chain_count == 0
            && are_spare_lengths(&self.chains)
            && self.x == 0
            && self.y == 0
            && self.test_count == 0
            && are_spare_tests(&self.tests)
    }
}
