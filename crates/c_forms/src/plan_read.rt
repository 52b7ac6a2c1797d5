// A plan record from its bytes. Bytes of another length stand for the plan that says nothing, which is not good.
ghost use Rattle.std.specs.Prelude.{◌≡◌, ◌≤◌, length};
ghost use Rattle.c_forms.specs.PlanForm.{plan_length, bus_at, placed_at, plan_at, plan_in};

use super::form::{ReadBack, read_each};
use super::plan_form::{BUSES_FROM, CYCLES_FROM, PLACED_FROM, PLAN_BYTES, START_FROM, TIME_FROM};
use super::word::{WORD_BYTES, word_at};
use plan_record::{Bus, BusPlan, PlacedModule};
use units::{Cycles, Wires};

impl ReadBack for Bus {
    ghost value_at = { bus_at };

    fn read(b: &[u8], at: usize) -> Bus {
        Bus {
            width: Wires(word_at(b, at, 0)),
            busy: Cycles(little_endian::u64_at(b, at + WORD_BYTES)),
        }
    }
}

impl ReadBack for PlacedModule {
    ghost value_at = { placed_at };

    fn read(b: &[u8], at: usize) -> PlacedModule {
        PlacedModule {
            number: word_at(b, at, 0) as usize,
            bus: word_at(b, at, 1) as usize,
            wires: Wires(word_at(b, at, 2)),
            cycles: Cycles(little_endian::u64_at(b, at + CYCLES_FROM)),
            start: Cycles(little_endian::u64_at(b, at + START_FROM)),
        }
    }
}

#[tactic(auto, unfolding(crate::specs::PlanForm::plan_at))]
fn plan_at(b: &[u8]) -> BusPlan
    requires { plan_length ≤ length b.now }
    ensures { result ≡ plan_at b.now }
{
    BusPlan {
        wires: Wires(word_at(b, 0, 0)),
        limit: word_at(b, 0, 1),
        bus_count: word_at(b, 0, 2) as usize,
        buses: read_each(b, BUSES_FROM),
        module_count: word_at(b, 0, 3) as usize,
        modules: read_each(b, PLACED_FROM),
        time: Cycles(little_endian::u64_at(b, TIME_FROM)),
    }
}

#[tactic(auto, unfolding(crate::specs::PlanForm::plan_in))]
pub fn plan_in(b: &[u8]) -> BusPlan
    ensures { result ≡ plan_in b.now }
{
    if b.len() == PLAN_BYTES {
        plan_at(b)
    } else {
        plan_record::no_plan()
    }
}
