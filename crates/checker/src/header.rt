// The fields before the trees or the rows, in order: each is tested for length, then for its value.
ghost use Rattle.std.specs.Prelude.{◌≡◌};
ghost use Rattle.question.specs.Held.{question_of};
ghost use Rattle.page_sheets.specs.Sheet.{check_sheet};
ghost use Rattle.outcome.specs.Answers.{judged_of};
ghost use Rattle.checker.specs.Header.{from_asked};

use checker_no::no_sheet;
use checker_yes::yes_sheet;
use outcome::Verdict;
use question::types::Question;
use refusal::{Fault, Refusal};

// The one version of the format.
const VERSION: u16 = 1;

// Asked, and the verdict that says whether trees or rows follow. Any byte may be asked: the sheet's is compared with it.
fn from_asked(q: &Question, asked: u8, sheet: &[u8]) -> Result<Verdict, Refusal>
    ensures { judged_of result ≡ from_asked (question_of q.now) asked sheet.now }
{
    if sheet.len() < 6 {
        return Err(Fault::SheetShort.at(5));
    }
    if sheet[5] != asked {
        return Err(Fault::SheetCode.at(5));
    }
    if sheet.len() < 7 {
        return Err(Fault::SheetShort.at(6));
    }
    // FORMAT 6.1: the verdict's number becomes the kind of sheet here.
    match sheet[6] {
        0 => yes_sheet(q, asked, sheet),
        1 => no_sheet(q, asked, sheet),
        _ => Err(Fault::SheetCode.at(6)),
    }
}

// The mark, and the version.
#[tactic(auto, unfolding(page_sheets::specs::Sheet::check_sheet_under))]
pub fn from_mark(q: &Question, asked: u8, sheet: &[u8]) -> Result<Verdict, Refusal>
    ensures { judged_of result ≡ check_sheet (question_of q.now) asked sheet.now }
{
    if sheet.len() < 3 {
        return Err(Fault::SheetShort.at(0));
    }
    if !sheet.starts_with(b"VUS") {
        return Err(Fault::SheetMark.at(0));
    }
    if sheet.len() < 5 {
        return Err(Fault::SheetShort.at(3));
    }
    if u16::from_le_bytes([sheet[3], sheet[4]]) != VERSION {
        return Err(Fault::SheetVersion.at(3));
    }
    from_asked(q, asked, sheet)
}
