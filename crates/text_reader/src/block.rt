// The lines of one module.
ghost use Rattle.std.specs.Prelude.{◌≡◌, ◌≤◌, take};
ghost use Rattle.text_lines.specs.Kinds.{level_line, second_line, tests_line, test_line};
ghost use Rattle.soc.specs.Limits.{tests_max};
ghost use Rattle.text_reader.specs.Lines.{line};
ghost use Rattle.text_reader.specs.Reading.{body, tests, module_tests, module_rest, module_lines};
ghost use Rattle.text_line_reader.specs.Due.{Inside, lines_at};
ghost use Rattle.text_reader.specs.Steps.{StepMeans, TestsMean};

use super::step::{due, taken};
use soc::{Module, NOT_GIVEN, TESTS_MAX, Test};
use text_line_reader::Place;
use text_lines::{Options, SecondLine, Shape};
use units::Refusal;

// The position of a module, where it is given, and its number of tests.
#[derive(Clone, Copy)]
pub struct Body {
    pub x: i32,
    pub y: i32,
    pub tests: usize,
}

fn level_step(text: &[u8], p: Place, m: u32, last: u32) -> Result<(Shape, Place), Refusal>
    requires { Inside text.now p }
    ensures { StepMeans text.now result (line (level_line m last) (lines_at text.now p)) }
{
    let l = due(text, p)?;
    taken(text_lines::level_line(&text[l.from..l.to], m, last), l)
}

fn second_step(text: &[u8], p: Place, m: u32, xy: bool) -> Result<(SecondLine, Place), Refusal>
    requires { Inside text.now p }
    ensures { StepMeans text.now result (line (second_line m xy) (lines_at text.now p)) }
{
    let l = due(text, p)?;
    taken(text_lines::second_line(&text[l.from..l.to], m, xy), l)
}

// The line with the number of tests, behind a position.
fn tests_count_step(text: &[u8], p: Place, m: u32) -> Result<(usize, Place), Refusal>
    requires { Inside text.now p }
    ensures { StepMeans text.now result (line (tests_line m) (lines_at text.now p)) }
{
    let l = due(text, p)?;
    taken(text_lines::tests_line(&text[l.from..l.to], m), l)
}

fn body_step(text: &[u8], p: Place, m: u32, xy: bool) -> Result<(Body, Place), Refusal>
    requires { Inside text.now p }
    ensures { StepMeans text.now result (body m xy (lines_at text.now p)) }
{
    let (second, next) = second_step(text, p, m, xy)?;
    match second {
        SecondLine::Tests(tests) => Ok((
            Body {
                x: NOT_GIVEN,
                y: NOT_GIVEN,
                tests,
            },
            next,
        )),
        SecondLine::Position(x, y) => {
            let (tests, q) = tests_count_step(text, next, m)?;
            Ok((Body { x, y, tests }, q))
        }
    }
}

fn test_step(text: &[u8], p: Place, m: u32, i: u32, power: bool) -> Result<(Test, Place), Refusal>
    requires { Inside text.now p }
    ensures { StepMeans text.now result (line (test_line m i power) (lines_at text.now p)) }
{
    let l = due(text, p)?;
    taken(text_lines::test_line(&text[l.from..l.to], m, i, power), l)
}

// The lines of n tests, at the front of the places for tests.
fn tests_step(
    text: &[u8],
    p: Place,
    m: u32,
    n: usize,
    power: bool,
) -> Result<([Test; TESTS_MAX], Place), Refusal>
    requires { Inside text.now p × (n ≤ tests_max) }
    ensures { TestsMean text.now n result (tests n m power (lines_at text.now p)) }
{
    let mut list = [soc::no_test(); TESTS_MAX];
    let mut place = p;
    for i in 0..n {
        let (test, next) = test_step(text, place, m, i as u32 + 1, power)?;
        list[i] = test;
        place = next;
    }
    Ok((list, place))
}

// The tests of a module whose first line, position and number of tests are read.
fn module_tests(
    text: &[u8],
    p: Place,
    m: u32,
    shape: Shape,
    body: Body,
    o: Options,
) -> Result<(Module, Place), Refusal>
    requires { Inside text.now p × (body.tests ≤ tests_max) }
    ensures { StepMeans text.now result (module_tests o m shape body (lines_at text.now p)) }
{
    let (tests, behind) = tests_step(text, p, m, body.tests, o.power)?;
    let chains = shape.chains.lengths;
    let module = Module {
        level: shape.level,
        inputs: shape.terminals.inputs,
        outputs: shape.terminals.outputs,
        bidirs: shape.terminals.bidirs,
        chain_count: shape.chains.count,
        chains,
        x: body.x,
        y: body.y,
        test_count: body.tests,
        tests,
    };
    Ok((module, behind))
}

// A module whose first line is read.
pub fn module_rest(
    text: &[u8],
    p: Place,
    m: u32,
    shape: Shape,
    o: Options,
) -> Result<(Module, Place), Refusal>
    requires { Inside text.now p }
    ensures { StepMeans text.now result (module_rest o m shape (lines_at text.now p)) }
{
    let (body, next) = body_step(text, p, m, o.xy)?;
    module_tests(text, next, m, shape, body, o)
}

// The lines of module m, where the previous module has level last.
pub(crate) fn module_step(
    text: &[u8],
    p: Place,
    m: u32,
    last: u32,
    o: Options,
) -> Result<(Module, Place), Refusal>
    requires { Inside text.now p }
    ensures { StepMeans text.now result (module_lines o m last (lines_at text.now p)) }
{
    let (shape, next) = level_step(text, p, m, last)?;
    module_rest(text, next, m, shape, o)
}
