// The answers: writer, checker and routines give them alike (specs/Answers says what each result means).
#![tactic(auto)]

ghost use Rattle.std.specs.Prelude.{◌≡◌, Some};
ghost use Rattle.page_sheets.specs.Sheet.{verdict_byte};
ghost use Rattle.outcome.specs.Answers.{verdict_of};
ghost use Rattle.outcome.specs.Words.{word_of, text_of};

use std::fmt;

#[derive(Clone, Copy, Debug, PartialEq, Eq)]
pub enum Verdict {
    Yes,
    No,
}

impl Verdict {
    // Its byte in a sheet (FORMAT 6.1).
    pub fn byte(self) -> u8
        ensures { result ≡ verdict_byte (verdict_of self) }
    {
        match self {
            Verdict::Yes => 0,
            Verdict::No => 1,
        }
    }
}

impl fmt::Display for Verdict {
    ghost output = { λ v. Some (word_of v) };

    fn fmt<W: fmt::Write>(&self, f: &mut fmt::Formatter<W>) -> fmt::Result {
        f.write_str(match self {
            Verdict::Yes => "yes",
            Verdict::No => "no",
        })
    }
}

// A sheet written into a lent room: the verdict that it shows, and how many bytes it takes from the room's start.
#[derive(Clone, Copy, Debug, PartialEq, Eq)]
pub struct Sheet {
    pub verdict: Verdict,
    pub length: usize,
}

// The verdict and the length, as in `yes 16`.
impl fmt::Display for Sheet {
    ghost output = { λ s. Some (text_of s) };

    fn fmt<W: fmt::Write>(&self, f: &mut fmt::Formatter<W>) -> fmt::Result {
        let verdict = self.verdict;
        let length = self.length;
        write!(f, "{verdict} {length}")
    }
}
