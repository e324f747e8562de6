// FORMAT 4.4: 20 first, then the question.
#![tactic(auto)]

ghost use Rattle.question.specs.Held.{Reads};
ghost use Rattle.page_sheets.specs.Answers.{asked_of};

use question::types::Question;
use reader::read;
use refusal::{Fault, Refusal};

// The question, or why there is none. Only 1 and 2 may be asked.
pub fn ask(asked: u8, question: &[u8]) -> Result<Question, Refusal>
    ensures { Reads result (asked_of asked question.now) }
{
    match asked {
        1 | 2 => read(question),
        _ => Err(Fault::Asked.at(0)),
    }
}
