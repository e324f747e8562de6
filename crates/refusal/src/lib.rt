// Why bytes are refused, and where (FORMAT 4.3): reader, writer, checker and routines say it alike.
#![tactic(auto)]

pub mod words;

ghost use Rattle.std.specs.Prelude.{◌≡◌};
ghost use Rattle.refusal.specs.Numbers.{number_of};

// What is wrong. Of a question: `Short` to `Long`; of a sheet: `SheetShort` to `SheetLong`; of a call: `Asked` and `Room`.
#[derive(Clone, Copy, Debug, PartialEq, Eq)]
pub enum Fault {
    Short,
    Mark,
    Version,
    Code,
    Range,
    Token,
    Column,
    Hidden,
    Long,
    SheetShort,
    SheetMark,
    SheetVersion,
    SheetCode,
    SheetFalse,
    SheetLong,
    Asked,
    Room,
}

impl Fault {
    // The number by which callers know it.
    pub fn number(self) -> u8
        ensures { result ≡ number_of self }
    {
        match self {
            Fault::Short => 1,
            Fault::Mark => 2,
            Fault::Version => 3,
            Fault::Code => 4,
            Fault::Range => 5,
            Fault::Token => 6,
            Fault::Column => 7,
            Fault::Hidden => 8,
            Fault::Long => 9,
            Fault::SheetShort => 11,
            Fault::SheetMark => 12,
            Fault::SheetVersion => 13,
            Fault::SheetCode => 14,
            Fault::SheetFalse => 15,
            Fault::SheetLong => 16,
            Fault::Asked => 20,
            Fault::Room => 21,
        }
    }

    // The refusal of what stands at `place`.
    pub fn at(self, place: usize) -> Refusal
        ensures { result ≡ record { fault = self; place = place } }
    {
        Refusal { fault: self, place }
    }
}

// A fault and the offset at which it stands.
#[derive(Clone, Copy, Debug, PartialEq, Eq)]
pub struct Refusal {
    pub fault: Fault,
    pub place: usize,
}
