// The plan record: what a planner answers, and a plan file says.
ghost use Rattle.std.specs.Prelude.{◌≡◌};
ghost use Rattle.plan_record.specs.Record.{no_bus, no_placed, no_plan};

use units::{Cycles, Wires};

// The places of a record: for buses, and for planned modules.
pub const BUS_PLACES: usize = 8;

pub const MODULE_PLACES: usize = 39;

#[derive(Clone, Copy, PartialEq, Eq)]
pub struct Bus {
    pub width: Wires,
    pub busy: Cycles,
}

#[derive(Clone, Copy, PartialEq, Eq)]
pub struct PlacedModule {
    pub number: usize,
    pub bus: usize,
    pub wires: Wires,
    pub cycles: Cycles,
    pub start: Cycles,
}

// W, B, the buses, the planned modules ascending, and the time. Spare places are 0. Counts and not a type that keeps to them, with no heap:
// refusal 12 judges records that break just that (`is_good_plan`).
#[derive(Clone, Copy, PartialEq, Eq)]
pub struct BusPlan {
    pub wires: Wires,
    pub limit: u32,
    pub bus_count: usize,
    pub buses: [Bus; BUS_PLACES],
    pub module_count: usize,
    pub modules: [PlacedModule; MODULE_PLACES],
    pub time: Cycles,
}

// A spare bus.
pub fn no_bus() -> Bus
    ensures { result ≡ no_bus }
{
    Bus {
        width: Wires(0),
        busy: Cycles(0),
    }
}

// A spare planned module.
pub fn no_placed() -> PlacedModule
    ensures { result ≡ no_placed }
{
    PlacedModule {
        number: 0,
        bus: 0,
        wires: Wires(0),
        cycles: Cycles(0),
        start: Cycles(0),
    }
}

// The plan that says nothing: of bytes that are no record, and where no plan is known.
pub fn no_plan() -> BusPlan
    ensures { result ≡ no_plan }
{
    BusPlan {
        wires: Wires(0),
        limit: 0,
        bus_count: 0,
        buses: [no_bus(); BUS_PLACES],
        module_count: 0,
        modules: [no_placed(); MODULE_PLACES],
        time: Cycles(0),
    }
}
