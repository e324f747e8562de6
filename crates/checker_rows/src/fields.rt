// FORMAT 8.3: the rows of a no sheet. Each field's value may stand there, and the formula is true at them.
ghost use Rattle.std.specs.Prelude.{◌+◌, ◌≤◌, length};
ghost use Rattle.question.specs.Held.{question_of};
ghost use Rattle.page_sheets.specs.Rows.{field_ok};
ghost use Rattle.checker_rows.specs.NoSheet.{FieldsRead};

use crate::allowances::field_allows;
use crate::layout::field_at;
use question::types::Question;
use refusal::{Fault, Refusal};

// Each of the first `count` fields is there, and its value may stand in it; or the first that is not so.
pub fn fields(q: &Question, i: usize, sheet: &[u8], count: usize) -> Result<(), Refusal>
    requires { (count ≤ q.now.shape.total + q.now.shape.total) × (8 ≤ length sheet.now) }
    ensures { FieldsRead (field_ok (question_of q.now) i sheet.now) sheet.now count result }
{
    // by an index: the format numbers the fields
    for j in 0..count {
        let place = field_at(j);
        if sheet.len() < place + 4 {
            return Err(Fault::SheetShort.at(place));
        }
        if !field_allows(q, i, sheet, j) {
            return Err(Fault::SheetFalse.at(place));
        }
    }
    Ok(())
}
