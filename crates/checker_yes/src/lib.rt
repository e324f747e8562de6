// A yes sheet: one tree per formula, and then the end.
#![tactic(auto)]

ghost use Rattle.std.specs.Prelude.{◌≡◌, ◌≤◌, length};
ghost use Rattle.page_meaning.specs.Limits.{most_vertices};
ghost use Rattle.question.specs.Held.{question_of};
ghost use Rattle.page_formulas.specs.Formulas.{formulas};
ghost use Rattle.page_sheets.specs.Sheet.{check_yes};
ghost use Rattle.outcome.specs.Answers.{judged_of};

use checker_trees::formulas::formula_tree;
use formula::formulas::{formula_count, outline};
use outcome::Verdict;
use program::types::Formula;
use question::types::{Asked, Question};
use refusal::{Fault, Refusal};

// The first tree stands after the header. The part of the sheet after a tree's end is lent to the next tree's check. Any byte may be
// asked, as by whoever compares it with the sheet's.
pub fn yes_sheet(q: &Question, asked: u8, sheet: &[u8]) -> Result<Verdict, Refusal>
    requires { 7 ≤ length sheet.now }
    ensures { judged_of result ≡ check_yes most_vertices (formulas (question_of q.now) asked) sheet.now }
{
    let asked = Asked::from(asked);
    let mut f = Formula::EMPTY;
    let mut at: usize = 7;
    // by an index: formulas are numbered, and stand in no list
    for i in 0..formula_count(q, asked) {
        outline(&mut f, q, asked, i);
        match formula_tree(&f, &sheet[at..]) {
            Ok(length) => at += length,
            Err(r) => return Err(r.fault.at(at + r.place)),
        }
    }
    if at < sheet.len() {
        return Err(Fault::SheetLong.at(0));
    }
    Ok(Verdict::Yes)
}
