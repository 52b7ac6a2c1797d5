// The rules of one test of a record: its figures within their limits, no TamUse 1 in module 0, and a spare one 0 throughout (refusal 14).
ghost use Rattle.std.specs.Prelude.{◌≡◌};
ghost use Rattle.soc.specs.Limits.{power_max};
ghost use Rattle.units.specs.Places.{all_of};
ghost use Rattle.soc.specs.Rules.{none_z, is_not_given, up_to, good_power, pins_rule, good_test, spare_test};

use super::{NOT_GIVEN, PATTERNS_MAX, POWER_MAX, Test};

#[tactic(auto, unfolding(crate::specs::Rules::good_power))]
fn is_good_power(option: bool, w: i32) -> bool
    ensures { result ≡ good_power option w }
{
    w == NOT_GIVEN || option && (0..=POWER_MAX).contains(&w)
}

// The terminals of module 0 are the SOC's pins: none of its tests has TamUse 1.
#[tactic(auto, unfolding(crate::specs::Rules::pins_rule))]
pub fn keeps_pins_rule(m: usize, tam: bool) -> bool
    ensures { result ≡ pins_rule m tam }
{
    !(m == 0 && tam)
}

impl Test {
    // As a test of module m.
    #[tactic(auto, unfolding(crate::specs::Rules::good_test))]
    fn is_good(&self, m: usize, power: bool) -> bool
        ensures { result ≡ good_test m power self.now }
    {
        keeps_pins_rule(m, self.tam_use)
            && (1..=PATTERNS_MAX).contains(&self.patterns)
            && is_good_power(power, self.power)
    }

    #[tactic(auto, unfolding(crate::specs::Rules::spare_test))]
    fn is_spare(&self) -> bool
        ensures { result ≡ spare_test self.now }
    {
        !self.scan_use && !self.tam_use && self.patterns == 0 && self.power == 0
    }
}

pub(crate) fn are_good_tests(m: usize, power: bool, tests: &[Test]) -> bool
    ensures { result ≡ all_of (good_test m power) tests.now }
{
    tests.iter().all(|t| t.is_good(m, power))
}

pub(crate) fn are_spare_tests(tests: &[Test]) -> bool
    ensures { result ≡ all_of spare_test tests.now }
{
    tests.iter().all(Test::is_spare)
}
