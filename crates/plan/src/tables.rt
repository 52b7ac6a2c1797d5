// The times and wires of all planned modules at all widths up to W, each computed once (document 01, "The plan" over "The wrapper rule").
ghost use Rattle.std.specs.Prelude.{◌<◌, length};
ghost use Rattle.soc.specs.Planned.{planned_of};
ghost use Rattle.plan_record.specs.Record.{module_places};
ghost use Rattle.plan.specs.Tables.{Plannable, TablesAre, TimesStand};

use super::limits::TABLE_PLACES;
use plan_search::ROW_PLACES;
use soc::{Planned, Soc};
use units::{CaptureCycles, Wires};
use wrapper_times::{Times, module_times};

// A row of places for each planned module, with a place for each width.
#[derive(Clone, Copy)]
pub struct Tables {
    pub cycles: [u64; TABLE_PLACES],
    pub wires: [u32; TABLE_PLACES],
}

// The tables with the times of the planned module k.
fn with_times(mut t: Tables, k: usize, times: Times) -> Tables
    requires { k < module_places }
    ensures { TimesStand t k times result }
{
    for j in 0..ROW_PLACES {
        t.cycles[k * ROW_PLACES + j] = times.cycles[j].0;
        t.wires[k * ROW_PLACES + j] = times.wires[j].0;
    }
    t
}

pub fn tables_of(s: Soc, p: Planned, w: Wires, capture: CaptureCycles) -> Tables
    requires { Plannable capture.0 s p w.0 }
    ensures { TablesAre capture.0 s w.0 (length (planned_of s)) result }
{
    let mut t = Tables {
        cycles: [0u64; TABLE_PLACES],
        wires: [0u32; TABLE_PLACES],
    };
    for (k, number) in p.numbers[..p.count].iter().enumerate() {
        let times = module_times(s, *number as u32, w, capture).unwrap();
        t = with_times(t, k, times);
    }
    t
}
