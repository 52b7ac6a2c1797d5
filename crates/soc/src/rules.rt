// Whether a handed SOC record keeps the limits and rules of the text, has its figures not given under an option 0, and 0 in every spare
// place (refusal 14).
ghost use Rattle.std.specs.Prelude.{◌≡◌};
ghost use Rattle.units.specs.Places.{all_of};
ghost use Rattle.soc.specs.Rules.{none, good_modules, spare_module, good_name, good_soc};

use super::{MODULES_MAX, Module, Soc};
use fields::NAME_MAX;

#[tactic(auto, unfolding(crate::specs::Rules::good_modules))]
fn are_good_modules(power: bool, xy: bool, modules: &[Module]) -> bool
    ensures { result ≡ good_modules power xy 0 0 modules.now }
{
    let mut last = 0;
    for (m, d) in modules.iter().enumerate() {
        if !d.is_good(power, xy, m, last) {
            return false;
        }
        last = d.level;
    }
    true
}

fn are_spare_modules(modules: &[Module]) -> bool
    ensures { result ≡ all_of spare_module modules.now }
{
    modules.iter().all(Module::is_spare)
}

fn are_spare_bytes(bytes: &[u8]) -> bool
    ensures { result ≡ all_of none bytes.now }
{
    bytes.iter().all(|b| *b == 0)
}

impl Soc {
    #[tactic(auto, unfolding(crate::specs::Rules::good_name))]
    fn has_good_name(&self) -> bool
        ensures { result ≡ good_name self.now }
    {
        let n = self.name_len;
        n <= NAME_MAX && fields::is_name(&self.name[..n]) && are_spare_bytes(&self.name[n..])
    }
}

#[tactic(auto, unfolding(crate::specs::Rules::good_soc))]
pub fn is_good(s: Soc) -> bool
    ensures { result ≡ good_soc s }
{
    let n = s.module_count;
    s.has_good_name()
        && (1..=MODULES_MAX).contains(&n)
        && are_good_modules(s.power, s.xy, &s.modules[..n])
        && are_spare_modules(&s.modules[n..])
}
