// Refusals as text (FORMAT 9.4): what a fault means, and a refusal's number and place.
ghost use Rattle.std.specs.Prelude.{Some};
ghost use Rattle.refusal.specs.Words.{meaning_of, text_of};

use crate::{Fault, Refusal};
use std::fmt;

impl fmt::Display for Fault {
    ghost output = { λ f. Some (meaning_of f) };

    fn fmt<W: fmt::Write>(&self, f: &mut fmt::Formatter<W>) -> fmt::Result {
        f.write_str(match self {
            Fault::Short => "a field runs past the end",
            Fault::Mark => "wrong mark",
            Fault::Version => "wrong version",
            Fault::Code => {
                "a count, kind, table, mode, visible byte, kept constant or unused column is not as said, or a seventh comparison"
            }
            Fault::Range => "a number out of range",
            Fault::Token => {
                "an unknown token or operator, a missing operand or an unfinished condition"
            }
            Fault::Column => "a column that does not exist or is not of the changed table",
            Fault::Hidden => "no visible column",
            Fault::Long => "bytes after the question's end",
            Fault::SheetShort => "the sheet is too short",
            Fault::SheetMark => "the sheet has a wrong mark",
            Fault::SheetVersion => "the sheet has a wrong version",
            Fault::SheetCode => "a byte of the sheet is none of the values that it may have",
            Fault::SheetFalse => "a leaf, branch, value or row of the sheet does not hold",
            Fault::SheetLong => "bytes after the sheet's end",
            Fault::Asked => "asked for neither irrelevant nor computable",
            Fault::Room => "the sheet is longer than the room",
        })
    }
}

impl fmt::Display for Refusal {
    ghost output = { λ r. Some (text_of r) };

    fn fmt<W: fmt::Write>(&self, f: &mut fmt::Formatter<W>) -> fmt::Result {
        let number = self.fault.number();
        let place = self.place;
        write!(f, "{number} {place}")
    }
}
