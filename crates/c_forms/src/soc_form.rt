// A SOC record put into a lent buffer as its bytes. Without the room nothing is put, and the answer is 0.
ghost use Rattle.c_forms.specs.Words.{word_length, PutFront};
ghost use Rattle.c_forms.specs.SocForm.{test_length, module_length, soc_length, test_bytes, length_bytes, module_bytes, soc_bytes};

use super::form::{Form, put_each, put_front};
use super::word::WORD_BYTES;
use fields::NAME_MAX;
use soc::{CHAINS_MAX, MODULES_MAX, Module, Soc, TESTS_MAX, Test};
use units::FlipFlops;

// How many bytes a test has.
pub(crate) const TEST_BYTES: usize = WORD_BYTES * 4;

// In a module, where its chains begin, its position and its tests, and how many bytes it has.
pub(crate) const CHAINS_FROM: usize = WORD_BYTES * 5;

pub(crate) const POSITION_FROM: usize = CHAINS_FROM + WORD_BYTES * CHAINS_MAX;

pub(crate) const TESTS_FROM: usize = POSITION_FROM + WORD_BYTES * 3;

pub(crate) const MODULE_BYTES: usize = TESTS_FROM + TEST_BYTES * TESTS_MAX;

// In a record, where its options begin and its modules.
pub(crate) const OPTIONS_FROM: usize = WORD_BYTES + NAME_MAX;

pub(crate) const MODULES_FROM: usize = OPTIONS_FROM + WORD_BYTES * 3;

pub const SOC_BYTES: usize = MODULES_FROM + MODULE_BYTES * MODULES_MAX;

impl Form for Test {
    ghost BYTES = { test_length };

    const BYTES: usize = TEST_BYTES;

    ghost bytes = { test_bytes };

    fn put(self, buf: &mut [u8], at: usize) -> usize {
        let w = [
            u64::from(self.scan_use),
            u64::from(self.tam_use),
            self.patterns as u64,
            self.power.cast_unsigned() as u64,
        ];
        put_each(buf, at, &w)
    }
}

impl Form for FlipFlops {
    ghost BYTES = { word_length };

    const BYTES: usize = WORD_BYTES;

    ghost bytes = { length_bytes };

    #[tactic(auto, unfolding(crate::specs::SocForm::length_bytes))]
    fn put(self, buf: &mut [u8], at: usize) -> usize {
        u64::from(self.0).put(buf, at)
    }
}

impl Form for Module {
    ghost BYTES = { module_length };

    const BYTES: usize = MODULE_BYTES;

    ghost bytes = { module_bytes };

    fn put(self, buf: &mut [u8], at: usize) -> usize {
        let shape = [
            self.level as u64,
            self.inputs as u64,
            self.outputs as u64,
            self.bidirs as u64,
            self.chain_count as u64,
        ];
        let position = [
            self.x.cast_unsigned() as u64,
            self.y.cast_unsigned() as u64,
            self.test_count as u64,
        ];
        let a = put_each(buf, at, &shape);
        let b = put_each(buf, a, &self.chains);
        let c = put_each(buf, b, &position);
        put_each(buf, c, &self.tests)
    }
}

impl Form for Soc {
    ghost BYTES = { soc_length };

    const BYTES: usize = SOC_BYTES;

    ghost bytes = { soc_bytes };

    fn put(self, buf: &mut [u8], at: usize) -> usize {
        let options = [
            u64::from(self.power),
            u64::from(self.xy),
            self.module_count as u64,
        ];
        let a = self.name_len.put(buf, at);
        let b = buffer::put_bytes(buf, a, &self.name);
        let c = put_each(buf, b, &options);
        put_each(buf, c, &self.modules)
    }
}

pub fn soc_bytes(s: Soc, buf: &mut [u8]) -> usize
    ensures { PutFront soc_length (soc_bytes s) buf.old buf.new result }
{
    put_front(s, buf)
}
