// What is asked, by its number and by its word (FORMAT 6.1, 9.4).
ghost use Rattle.std.specs.Prelude.{◌≡◌, Some, eqb};
ghost use Rattle.question.specs.Held.{asked_of};
ghost use Rattle.question.specs.Asking.{word_of};

use crate::types::Asked;
use std::fmt;

impl Asked {
    // The number by which callers ask.
    pub fn number(self) -> u8
        ensures { result ≡ asked_of self }
    {
        match self {
            Asked::Irrelevant => 1,
            Asked::Computable => 2,
        }
    }
}

// A number becomes what it asks for; each but 1 asks for what 2 does, as in the formulas that the pages give for it.
impl From<u8> for Asked {
    ghost from_gives = { λ number asked. eqb (asked_of asked) 1 ≡ eqb number 1 };

    fn from(number: u8) -> Asked {
        match number {
            1 => Asked::Irrelevant,
            _ => Asked::Computable,
        }
    }
}

impl fmt::Display for Asked {
    ghost output = { λ a. Some (word_of a) };

    fn fmt<W: fmt::Write>(&self, f: &mut fmt::Formatter<W>) -> fmt::Result {
        f.write_str(match self {
            Asked::Irrelevant => "irrelevant",
            Asked::Computable => "computable",
        })
    }
}
