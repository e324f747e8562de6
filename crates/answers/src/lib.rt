// The public routines over bytes: the verdict, the sheet that shows it, and the check of a sheet. What is asked is a byte here, and no
// `Asked`: callers hold any byte (README), and each has an answer.
#![tactic(auto)]

ghost use Rattle.std.specs.Prelude.{◌≡◌, ◌≤◌, length, IfOk};
ghost use Rattle.page_sheets.specs.Answers.{verdict_of, write_of, check_of};
ghost use Rattle.outcome.specs.Answers.{judged_of, done_of};

use asking::ask;
use checker::header::from_mark;
use outcome::{Sheet, Verdict};
use refusal::Refusal;
use verdicts::verdict::judge;
use writer::finish;

// The verdict alone: asked 1 irrelevant, 2 computable.
pub fn verdict(asked: u8, question: &[u8]) -> Result<Verdict, Refusal>
    ensures { judged_of result ≡ verdict_of asked question.now }
{
    let question = ask(asked, question)?;
    Ok(judge(&question, asked))
}

// The sheet, into a lent room.
pub fn write(asked: u8, question: &[u8], room: &mut [u8]) -> Result<Sheet, Refusal>
    ensures done { done_of result room.new ≡ write_of asked question.now room.old }
    ensures fits { IfOk result (λ s. s.length ≤ length room.new) }
{
    let read = ask(asked, question)?;
    finish(room, &read, asked)
}

// The verdict that a sheet shows, or why it shows none.
pub fn check(asked: u8, question: &[u8], sheet: &[u8]) -> Result<Verdict, Refusal>
    ensures { judged_of result ≡ check_of asked question.now sheet.now }
{
    let question = ask(asked, question)?;
    from_mark(&question, asked, sheet)
}
