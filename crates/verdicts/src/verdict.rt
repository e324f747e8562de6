// The verdict for a question that was read: no where a formula is open.
ghost use Rattle.std.specs.Prelude.{◌≡◌};
ghost use Rattle.question.specs.Held.{question_of};
ghost use Rattle.outcome.specs.Answers.{verdict_of};
ghost use Rattle.page_sheets.specs.Sheet.{verdict_for, finding_of};

use crate::openings::first_open;
use outcome::Verdict;
use question::types::Question;

// It is that of the sheet, whose trees or values are not looked for.
pub fn judge(q: &Question, asked: u8) -> Verdict
    ensures { verdict_of result ≡ verdict_for (finding_of (question_of q.now) asked) }
{
    match first_open(q, asked) {
        Some(_) => Verdict::No,
        None => Verdict::Yes,
    }
}
