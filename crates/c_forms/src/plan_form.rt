// A plan record put into a lent buffer as its bytes. Without the room nothing is put, and the answer is 0.
ghost use Rattle.c_forms.specs.Words.{PutFront};
ghost use Rattle.c_forms.specs.PlanForm.{bus_stride, placed_stride, plan_length, bus_bytes, placed_bytes, plan_bytes};

use super::form::{Form, put_each, put_front};
use super::word::{LONG_BYTES, WORD_BYTES};
use plan_record::{BUS_PLACES, Bus, BusPlan, MODULE_PLACES, PlacedModule};

// How many bytes a bus has.
pub(crate) const BUS_STRIDE: usize = WORD_BYTES + LONG_BYTES;

// In a planned module, where its cycles begin, and its start, and how many bytes it has.
pub(crate) const CYCLES_FROM: usize = WORD_BYTES * 3;

pub(crate) const START_FROM: usize = CYCLES_FROM + LONG_BYTES;

pub(crate) const PLACED_STRIDE: usize = START_FROM + LONG_BYTES;

// In a record, where its time begins, its buses and its planned modules.
pub(crate) const TIME_FROM: usize = WORD_BYTES * 4;

pub(crate) const BUSES_FROM: usize = TIME_FROM + LONG_BYTES;

pub(crate) const PLACED_FROM: usize = BUSES_FROM + BUS_STRIDE * BUS_PLACES;

pub const PLAN_BYTES: usize = PLACED_FROM + PLACED_STRIDE * MODULE_PLACES;

impl Form for Bus {
    ghost BYTES = { bus_stride };

    const BYTES: usize = BUS_STRIDE;

    ghost bytes = { bus_bytes };

    fn put(self, buf: &mut [u8], at: usize) -> usize {
        let a = u64::from(self.width.0).put(buf, at);
        little_endian::put_u64(buf, a, self.busy.0)
    }
}

impl Form for PlacedModule {
    ghost BYTES = { placed_stride };

    const BYTES: usize = PLACED_STRIDE;

    ghost bytes = { placed_bytes };

    fn put(self, buf: &mut [u8], at: usize) -> usize {
        let w = [self.number as u64, self.bus as u64, self.wires.0 as u64];
        let a = put_each(buf, at, &w);
        let b = little_endian::put_u64(buf, a, self.cycles.0);
        little_endian::put_u64(buf, b, self.start.0)
    }
}

impl Form for BusPlan {
    ghost BYTES = { plan_length };

    const BYTES: usize = PLAN_BYTES;

    ghost bytes = { plan_bytes };

    fn put(self, buf: &mut [u8], at: usize) -> usize {
        let w = [
            self.wires.0 as u64,
            self.limit as u64,
            self.bus_count as u64,
            self.module_count as u64,
        ];
        let a = put_each(buf, at, &w);
        let b = little_endian::put_u64(buf, a, self.time.0);
        let c = put_each(buf, b, &self.buses);
        put_each(buf, c, &self.modules)
    }
}

pub fn plan_bytes(p: BusPlan, buf: &mut [u8]) -> usize
    ensures { PutFront plan_length (plan_bytes p) buf.old buf.new result }
{
    put_front(p, buf)
}
