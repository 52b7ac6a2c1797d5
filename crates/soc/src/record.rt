// The SOC record and its limits. What is in use stands at the front of an array, as many places as its count says; the spare places
// behind it are 0. A count and not a type that keeps to it, with no heap: refusal 14 judges records that break just that (`is_good`).
ghost use Rattle.std.specs.Prelude.{◌≡◌};
ghost use Rattle.soc.specs.Record.{no_test, no_module, no_soc};

use fields::NAME_MAX;
use units::FlipFlops;

pub const TEXT_MAX: usize = 61440;

pub const MODULES_MAX: usize = 40;

pub const LEVEL_MAX: u32 = 40;

pub const TERMINALS_MAX: u32 = 8191;

pub const CHAINS_MAX: usize = 64;

pub const LENGTH_MAX: u32 = 4096;

pub const TESTS_MAX: usize = 8;

pub const PATTERNS_MAX: u32 = 16777215;

pub const POSITION_MAX: i32 = 1000000;

pub const POWER_MAX: i32 = 16777215;

// X, Y or Power that is not given.
pub const NOT_GIVEN: i32 = -1;

#[derive(Clone, Copy, PartialEq, Eq)]
pub struct Test {
    pub scan_use: bool,
    pub tam_use: bool,
    pub patterns: u32,
    pub power: i32,
}

#[derive(Clone, Copy, PartialEq, Eq)]
pub struct Module {
    pub level: u32,
    pub inputs: u32,
    pub outputs: u32,
    pub bidirs: u32,
    pub chain_count: usize,
    pub chains: [FlipFlops; CHAINS_MAX],
    pub x: i32,
    pub y: i32,
    pub test_count: usize,
    pub tests: [Test; TESTS_MAX],
}

#[derive(Clone, Copy, PartialEq, Eq)]
pub struct Soc {
    pub name_len: usize,
    pub name: [u8; NAME_MAX],
    pub power: bool,
    pub xy: bool,
    pub module_count: usize,
    pub modules: [Module; MODULES_MAX],
}

// A spare test.
pub fn no_test() -> Test
    ensures { result ≡ no_test }
{
    Test {
        scan_use: false,
        tam_use: false,
        patterns: 0,
        power: 0,
    }
}

// A spare module.
pub fn no_module() -> Module
    ensures { result ≡ no_module }
{
    Module {
        level: 0,
        inputs: 0,
        outputs: 0,
        bidirs: 0,
        chain_count: 0,
        chains: [FlipFlops(0); CHAINS_MAX],
        x: 0,
        y: 0,
        test_count: 0,
        tests: [no_test(); TESTS_MAX],
    }
}

// The record that says nothing: of bytes that are no record.
pub fn no_soc() -> Soc
    ensures { result ≡ no_soc }
{
    Soc {
        name_len: 0,
        name: [0; NAME_MAX],
        power: false,
        xy: false,
        module_count: 0,
        modules: [no_module(); MODULES_MAX],
    }
}
