// Wires, flip-flops and cycles: three counts that the papers keep apart, each a type of its own, so that one cannot be passed where
// another is wanted. Beside them the capture cycles of a test (document 02, item 5). And a refusal: its fault, which has a number in
// document 01's table, and its line.
#![tactic(auto)]

ghost use Rattle.std.specs.Prelude.{◌≡◌};
ghost use Rattle.units.specs.Refusals.{number_of, refused};

#[derive(Clone, Copy, PartialEq, Eq)]
pub struct Wires(pub u32);

#[derive(Clone, Copy, PartialEq, Eq)]
pub struct FlipFlops(pub u32);

#[derive(Clone, Copy, PartialEq, Eq)]
pub struct Cycles(pub u64);

// The clock cycles between load and unload.
#[derive(Clone, Copy, PartialEq, Eq)]
pub struct CaptureCycles(pub u32);

// Why a call is refused, in the order of the documents' table of refusal numbers.
#[derive(Clone, Copy, PartialEq, Eq)]
pub enum Fault {
    LongText,
    ForbiddenByte,
    WrongForm,
    WrongFigure,
    BrokenRule,
    EarlyEnd,
    Width,
    Buses,
    NonePlanned,
    ManyPlanned,
    ShortBuffer,
    BadPlan,
    NotThere,
    BadSoc,
    OtherBase,
    Capture,
    PlannedPins,
    Budget,
}

// Its number there.
impl From<Fault> for u8 {
    ghost from_gives = { λ f n. n ≡ number_of f };

    fn from(f: Fault) -> u8 {
        match f {
            Fault::LongText => 1,
            Fault::ForbiddenByte => 2,
            Fault::WrongForm => 3,
            Fault::WrongFigure => 4,
            Fault::BrokenRule => 5,
            Fault::EarlyEnd => 6,
            Fault::Width => 7,
            Fault::Buses => 8,
            Fault::NonePlanned => 9,
            Fault::ManyPlanned => 10,
            Fault::ShortBuffer => 11,
            Fault::BadPlan => 12,
            Fault::NotThere => 13,
            Fault::BadSoc => 14,
            Fault::OtherBase => 15,
            Fault::Capture => 16,
            Fault::PlannedPins => 17,
            Fault::Budget => 18,
        }
    }
}

// A refusal: its fault, and the line of the text that has it; 0 outside a text.
#[derive(Clone, Copy, PartialEq, Eq)]
pub struct Refusal {
    pub fault: Fault,
    pub line: usize,
}

// Outside a text.
impl From<Fault> for Refusal {
    ghost from_gives = { λ f r. r ≡ refused f 0 };

    fn from(fault: Fault) -> Refusal {
        Refusal { fault, line: 0 }
    }
}

impl Refusal {
    pub fn at(fault: Fault, line: usize) -> Self
        ensures { result ≡ refused fault line }
    {
        Self { fault, line }
    }
}
