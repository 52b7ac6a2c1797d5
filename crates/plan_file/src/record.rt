// The two kinds of records of a plan file, of modules and of buses: each read at its place, its zero bytes looked at, and put at the front
// of the part that it is handed.
ghost use Rattle.std.specs.Prelude.{◌≡◌, ◌+◌, ◌≤◌, ℕ, Bool, List, length};
ghost use Rattle.buffer.specs.Puts.{put_front};
ghost use Rattle.plan_record.specs.Record.{no_bus, no_placed};
ghost use Rattle.plan_file.specs.Bytes.{module_stride, bus_stride, module_bytes, bus_bytes};
ghost use Rattle.plan_file.specs.Files.{module_at, bus_at, zero_module, zero_bus};
ghost use Rattle.plan_file.specs.Puts.{SmallModule, SmallBus};

use super::strides::{BUS_STRIDE, MODULE_STRIDE};
use buffer::put_bytes;
use little_endian::{put_u64, u64_at};
use plan_record::{Bus, PlacedModule, no_bus, no_placed};
use units::{Cycles, Wires};

pub(crate) trait Record: Copy {
    ghost STRIDE: { ℕ };

    // How many bytes it has.
    const STRIDE: usize;

    ghost bytes: { Self → List ℕ };

    ghost Small: { Self → Type 0 };

    ghost value_at: { List ℕ → ℕ → Self };

    ghost zero_at: { List ℕ → ℕ → Bool };

    ghost nothing: { Self };

    fn put(self, b: &mut [u8])
        requires { (STRIDE ≤ length b.old) × Small self }
        ensures { (b.new ≡ put_front (bytes self) b.old) × (length (bytes self) ≡ STRIDE) };

    fn read(f: &[u8], at: usize) -> Self
        requires { at + STRIDE ≤ length f.now }
        ensures { result ≡ value_at f.now at };

    // Whether the bytes that are always 0 are so.
    fn has_zeros(f: &[u8], at: usize) -> bool
        requires { at + STRIDE ≤ length f.now }
        ensures { result ≡ zero_at f.now at };

    // What stands for none, in a spare place.
    fn none() -> Self
        ensures { result ≡ nothing };
}

// Number, bus, wires, zero, cycles, start.
impl Record for PlacedModule {
    ghost STRIDE = { module_stride };

    const STRIDE: usize = MODULE_STRIDE;

    ghost bytes = { module_bytes };

    ghost Small = { SmallModule };

    ghost value_at = { module_at };

    ghost zero_at = { zero_module };

    ghost nothing = { no_placed };

    fn put(self, b: &mut [u8]) {
        let w = [self.number as u8, self.bus as u8, self.wires.0 as u8, 0];
        let at = put_bytes(&mut *b, 0, &w);
        let next = put_u64(&mut *b, at, self.cycles.0);
        put_u64(&mut *b, next, self.start.0);
    }

    fn read(f: &[u8], at: usize) -> PlacedModule {
        PlacedModule {
            number: usize::from(f[at]),
            bus: usize::from(f[at + 1]),
            wires: Wires(u32::from(f[at + 2])),
            cycles: Cycles(u64_at(f, at + 4)),
            start: Cycles(u64_at(f, at + 12)),
        }
    }

    #[tactic(auto, unfolding(crate::specs::Files::zero_module))]
    fn has_zeros(f: &[u8], at: usize) -> bool {
        f[at + 3] == 0
    }

    fn none() -> PlacedModule {
        no_placed()
    }
}

// Width, three zeros, busy.
impl Record for Bus {
    ghost STRIDE = { bus_stride };

    const STRIDE: usize = BUS_STRIDE;

    ghost bytes = { bus_bytes };

    ghost Small = { SmallBus };

    ghost value_at = { bus_at };

    ghost zero_at = { zero_bus };

    ghost nothing = { no_bus };

    fn put(self, b: &mut [u8]) {
        let w = [self.width.0 as u8, 0, 0, 0];
        let at = put_bytes(&mut *b, 0, &w);
        put_u64(&mut *b, at, self.busy.0);
    }

    fn read(f: &[u8], at: usize) -> Bus {
        Bus {
            width: Wires(u32::from(f[at])),
            busy: Cycles(u64_at(f, at + 4)),
        }
    }

    #[tactic(auto, unfolding(crate::specs::Files::zero_bus))]
    fn has_zeros(f: &[u8], at: usize) -> bool {
        f[at + 1] == 0 && f[at + 2] == 0 && f[at + 3] == 0
    }

    fn none() -> Bus {
        no_bus()
    }
}
