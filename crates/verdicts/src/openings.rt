// The first formula that is open.
ghost use Rattle.question.specs.Held.{question_of};
ghost use Rattle.page_sheets.specs.Sheet.{finding_of};
ghost use Rattle.verdicts.specs.Finding.{Finds, Shown};

use formula::formulas::{formula_count, outline};
use limits::VERTICES;
use program::types::Formula;
use question::types::{Asked, Question};
use tableau::openings::formula_opens;

// A formula's number, and values in range at which it is true.
#[derive(Clone, Copy)]
pub struct Found {
    pub number: usize,
    pub values: [i64; VERTICES],
}

// Any byte may be asked here, and so by all who call this: the pages have formulas for each.
pub fn first_open(q: &Question, asked: u8) -> Option<Found>
    ensures { Finds (finding_of (question_of q.now) asked) result × Shown (question_of q.now) asked result }
{
    let asked = Asked::from(asked);
    let mut f = Formula::EMPTY;
    // by an index: formulas are numbered, and stand in no list
    for i in 0..formula_count(q, asked) {
        outline(&mut f, q, asked, i);
        if let Some(values) = formula_opens(&f) {
            return Some(Found { number: i, values });
        }
    }
    None
}
