// A modify's modes, one for each column of the changed table.
ghost use Rattle.std.specs.Prelude.{◌≤◌, [], map, take};
ghost use Rattle.page_meaning.specs.Limits.{most_columns};
ghost use Rattle.page_questions.specs.Reader.{mode_at, no_column_at, many};
ghost use Rattle.question.specs.Held.{mode_of, setting_of};
ghost use Rattle.fields.specs.Steps.{Steps};

use fields::cursor::Cursor;
use limits::COLUMNS;
use question::types::{Mode, Setting};
use refusal::{Fault, Refusal};
use tokens::token::{NO_COLUMN, Names, constant};

// FORMAT 3.4: the column byte of a mode that names none.
const NONE: usize = NO_COLUMN as usize;

fn no_column(from: &mut Cursor) -> Result<u8, Refusal>
    ensures { Steps (λ j. j) no_column_at from.old result from.new }
{
    from.byte(Fault::Code, NONE, NONE + 1)
}

// A mode, its column and its constant. Its byte becomes a mode here: nothing else says which it is.
fn mode(from: &mut Cursor, names: Names) -> Result<Mode, Refusal>
    ensures { Steps mode_of (λ s p. mode_at s names.low names.high p) from.old result from.new }
{
    match from.byte(Fault::Code, 0, 3)? {
        0 => {
            no_column(from)?;
            from.number(Fault::Code, 0, 0)?;
            Ok(Mode::Keep)
        }
        1 => {
            no_column(from)?;
            Ok(Mode::Become(constant(from)?))
        }
        _ => {
            let column = names.column(from)?;
            Ok(Mode::Shift(column, constant(from)?))
        }
    }
}

// What becomes of a table that keeps every column.
pub(crate) const KEPT: [Setting; COLUMNS] = [Setting { mode: Mode::Keep }; COLUMNS];

// A mode for each of n columns.
pub fn modes(from: &mut Cursor, names: Names, n: usize) -> Result<[Setting; COLUMNS], Refusal>
    requires { n ≤ most_columns }
    ensures { Steps (λ ms. map setting_of (take n ms)) (λ s p. many (λ ms q. mode_at s names.low names.high q) n [] p) from.old result from.new }
{
    let mut settings = KEPT;
    for setting in settings[..n].iter_mut() {
        setting.mode = mode(from, names)?;
    }
    Ok(settings)
}
