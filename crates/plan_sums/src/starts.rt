// The starts of a record's modules, judged by its own modules (document 02, item 1).
ghost use Rattle.std.specs.Prelude.{◌≡◌};
ghost use Rattle.plan_record.specs.Record.{modules_of, runs_before, start_of};
ghost use Rattle.plan_record.specs.Good.{good_starts};
ghost use Rattle.plan_sums.specs.Times.{CyclesFit};

use super::times::cycles_where;
use plan_record::{BusPlan, PlacedModule};

// Whether x runs on m's bus before m.
fn runs_before(x: PlacedModule, m: PlacedModule) -> bool
    ensures { result ≡ runs_before x m }
{
    x.bus == m.bus && x.number < m.number
}

// The cycles of the modules on m's bus with a lower number.
fn start_of(p: &BusPlan, m: PlacedModule) -> u64
    requires { CyclesFit p.now }
    ensures { result ≡ start_of (modules_of p.now) m }
{
    cycles_where(p, |x| runs_before(x, m))
}

pub fn has_good_starts(p: BusPlan) -> bool
    requires { CyclesFit p }
    ensures { result ≡ good_starts (modules_of p) }
{
    p.modules[..p.module_count]
        .iter()
        .all(|m| m.start.0 == start_of(&p, *m))
}
