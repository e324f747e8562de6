// A no sheet: the number of a formula, the values of its rows, and then the end.
#![tactic(auto)]

ghost use Rattle.std.specs.Prelude.{◌≡◌, cond, ◌+◌, ◌≤◌, ◌<◌, length};
ghost use Rattle.page_meaning.specs.Contents as meant;
ghost use Rattle.page_meaning.specs.Limits.{most_columns, most_vertices};
ghost use Rattle.question.specs.Held.{question_of};
ghost use Rattle.page_formulas.specs.Formulas.{formulas};
ghost use Rattle.page_formulas.specs.Formulas as spec;
ghost use Rattle.program.specs.Compiled.{Compiled, Fine};
ghost use Rattle.page_sheets.specs.Rows as rows;
ghost use Rattle.page_sheets.specs.Sheet.{no_end, check_rows, check_no};
ghost use Rattle.outcome.specs.Answers.{judged_of};

use checker_rows::fields::fields;
use checker_rows::formulas::formula_met;
use checker_rows::layout::field_at;
use formula::formulas::{formula_count, outline};
use outcome::Verdict;
use program::types::Formula;
use question::types::{Asked, Question};
use refusal::{Fault, Refusal};
use sights::terms::whole;

// Where the formula's number stands: after the header.
const NUMBER: usize = 7;

// How many values the rows have, by whether there are two rows.
fn value_count(total: usize, pairs: bool) -> usize
    requires { total ≤ most_columns }
    ensures { result ≡ cond pairs (total + total) total }
{
    if pairs { total + total } else { total }
}

// What a sheet comes to whose values, so many, may all stand there: a failing formula comes before bytes that are left.
fn rows_end(f: &Formula, sheet: &[u8], count: usize) -> Result<Verdict, Refusal>
    requires { Fine f.now × (count < most_vertices) × (rows.field_at count ≤ length sheet.now) }
    ensures { (F : spec.Formula) (q : meant.Question) → Compiled f.now F → count ≡ rows.fields q F → judged_of result ≡ no_end q F sheet.now }
{
    if !formula_met(f, sheet, count) {
        return Err(Fault::SheetFalse.at(NUMBER));
    }
    if field_at(count) < sheet.len() {
        return Err(Fault::SheetLong.at(0));
    }
    Ok(Verdict::No)
}

// The values from the first on, for formula i.
fn formula_rows(q: &Question, i: usize, f: &Formula, sheet: &[u8]) -> Result<Verdict, Refusal>
    requires { Fine f.now × (8 ≤ length sheet.now) }
    ensures { (F : spec.Formula) → Compiled f.now F → judged_of result ≡ check_rows (question_of q.now) i F sheet.now }
{
    whole(q);
    let count = value_count(q.shape.total, f.pairs);
    fields(q, i, sheet, count)?;
    rows_end(f, sheet, count)
}

// The formula's number, then its rows. Any byte may be asked, as for a yes sheet.
pub fn no_sheet(q: &Question, asked: u8, sheet: &[u8]) -> Result<Verdict, Refusal>
    ensures { judged_of result ≡ check_no (question_of q.now) (formulas (question_of q.now) asked) sheet.now }
{
    if sheet.len() <= NUMBER {
        return Err(Fault::SheetShort.at(NUMBER));
    }
    let asked = Asked::from(asked);
    let i = sheet[NUMBER] as usize;
    if formula_count(q, asked) <= i {
        return Err(Fault::SheetCode.at(NUMBER));
    }
    let mut f = Formula::EMPTY;
    outline(&mut f, q, asked, i);
    formula_rows(q, i, &f, sheet)
}
