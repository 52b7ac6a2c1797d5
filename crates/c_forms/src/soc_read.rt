// A SOC record from its bytes. Bytes of another length, or with a flag that is neither 0 nor 1, stand for the record that says nothing,
// which is not good.
ghost use Rattle.std.specs.Prelude.{◌≡◌, ◌+◌, ◌*◌, ◌≤◌, length, take, drop};
ghost use Rattle.fields.specs.Names.{name_max};
ghost use Rattle.c_forms.specs.Words.{word_length};
ghost use Rattle.c_forms.specs.SocForm.{module_length, soc_length, test_at, length_at, module_at, soc_at};
ghost use Rattle.c_forms.specs.SocForm.{flags_at, module_flags, soc_flags, soc_in};

use super::form::{ReadBack, read_each};
use super::soc_form::{
    CHAINS_FROM, MODULE_BYTES, MODULES_FROM, OPTIONS_FROM, POSITION_FROM, SOC_BYTES, TEST_BYTES,
    TESTS_FROM,
};
use super::word::{WORD_BYTES, word_at};
use fields::NAME_MAX;
use soc::{MODULES_MAX, Module, Soc, TESTS_MAX, Test};
use units::FlipFlops;

impl ReadBack for Test {
    ghost value_at = { test_at };

    #[tactic(auto, using(crate::proofs::SignedLaws::held_in))]
    fn read(b: &[u8], at: usize) -> Test {
        Test {
            scan_use: word_at(b, at, 0) == 1,
            tam_use: word_at(b, at, 1) == 1,
            patterns: word_at(b, at, 2),
            power: word_at(b, at, 3).cast_signed(),
        }
    }
}

impl ReadBack for FlipFlops {
    ghost value_at = { length_at };

    fn read(b: &[u8], at: usize) -> FlipFlops {
        FlipFlops(word_at(b, at, 0))
    }
}

impl ReadBack for Module {
    ghost value_at = { module_at };

    #[tactic(auto, using(crate::proofs::SignedLaws::held_in))]
    fn read(b: &[u8], at: usize) -> Module {
        let position = at + POSITION_FROM;
        Module {
            level: word_at(b, at, 0),
            inputs: word_at(b, at, 1),
            outputs: word_at(b, at, 2),
            bidirs: word_at(b, at, 3),
            chain_count: word_at(b, at, 4) as usize,
            chains: read_each(b, at + CHAINS_FROM),
            x: word_at(b, position, 0).cast_signed(),
            y: word_at(b, position, 1).cast_signed(),
            test_count: word_at(b, position, 2) as usize,
            tests: read_each(b, at + TESTS_FROM),
        }
    }
}

fn name_at(b: &[u8]) -> [u8; NAME_MAX]
    requires { soc_length ≤ length b.now }
    ensures { result ≡ take name_max (drop word_length b.now) }
{
    let mut name = [0u8; NAME_MAX];
    name.copy_from_slice(&b[WORD_BYTES..OPTIONS_FROM]);
    name
}

// The modules are read into their places, since an array of them is 15 KiB, and each function that hands it on copies it.
fn soc_at(b: &[u8]) -> Soc
    requires { soc_length ≤ length b.now }
    ensures { result ≡ soc_at b.now }
{
    let mut modules = [soc::no_module(); MODULES_MAX];
    for i in 0..MODULES_MAX {
        modules[i] = Module::read(b, MODULES_FROM + MODULE_BYTES * i);
    }
    Soc {
        name_len: word_at(b, 0, 0) as usize,
        name: name_at(b),
        power: word_at(b, OPTIONS_FROM, 0) == 1,
        xy: word_at(b, OPTIONS_FROM, 1) == 1,
        module_count: word_at(b, OPTIONS_FROM, 2) as usize,
        modules,
    }
}

// Whether the first two words from a place on are flags, 0 or 1.
fn are_flags(b: &[u8], at: usize) -> bool
    requires { at + word_length * 2 ≤ length b.now }
    ensures { result ≡ flags_at b.now at }
{
    word_at(b, at, 0) <= 1 && word_at(b, at, 1) <= 1
}

fn are_module_flags(b: &[u8], at: usize) -> bool
    requires { at + module_length ≤ length b.now }
    ensures { result ≡ module_flags b.now at }
{
    (0..TESTS_MAX).all(|i| are_flags(b, at + TESTS_FROM + TEST_BYTES * i))
}

fn are_soc_flags(b: &[u8]) -> bool
    requires { soc_length ≤ length b.now }
    ensures { result ≡ soc_flags b.now }
{
    are_flags(b, OPTIONS_FROM)
        && (0..MODULES_MAX).all(|i| are_module_flags(b, MODULES_FROM + MODULE_BYTES * i))
}

#[tactic(auto, unfolding(crate::specs::SocForm::soc_in))]
pub fn soc_in(b: &[u8]) -> Soc
    ensures { result ≡ soc_in b.now }
{
    if b.len() != SOC_BYTES || !are_soc_flags(b) {
        return soc::no_soc();
    }
    soc_at(b)
}
