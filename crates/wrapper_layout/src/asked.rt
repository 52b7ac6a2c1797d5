// The test of a module that is asked for.
ghost use Rattle.std.specs.Prelude.{◌≡◌, ◌≤◌};
ghost use Rattle.wrapper_layout.specs.Held.{found_test};

use soc::{Module, Test};
use units::Fault;

// A module's test, from 1; or 13.
#[tactic(auto, unfolding(crate::specs::Held::found_test, crate::specs::LayoutAnswers::asked_test))]
pub(crate) fn asked_test(d: Module, i: u32) -> Result<Test, Fault>
    requires { d.test_count ≤ 8 }
    ensures { result ≡ found_test d i }
{
    let i = i as usize;
    if !(1..=d.test_count).contains(&i) {
        return Err(Fault::NotThere);
    }
    Ok(d.tests[i - 1])
}
