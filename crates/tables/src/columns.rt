// Columns: lo, hi, visible.
ghost use Rattle.std.specs.Prelude.{◌≤◌, ◌≡◌, [], map, take};
ghost use Rattle.page_meaning.specs.Limits.{most_columns};
ghost use Rattle.page_questions.specs.Layout.{visible_from};
ghost use Rattle.page_questions.specs.Reader.{column_at, many};
ghost use Rattle.question.specs.Held.{column_of};
ghost use Rattle.fields.specs.Steps.{Steps};
ghost use Rattle.tables.specs.Shapes.{some};

use fields::cursor::Cursor;
use limits::COLUMNS;
use question::types::Column;
use refusal::{Fault, Refusal};

// A column: lo, hi from lo on, and whether it is visible, which the byte 1 says.
fn column(from: &mut Cursor) -> Result<Column, Refusal>
    ensures { Steps column_of column_at from.old result from.new }
{
    let lo = from.number(Fault::Range, -1000000000, 1000000000)?;
    let hi = from.number(Fault::Range, lo, 1000000000)?;
    let shown = from.byte(Fault::Code, 0, 2)?;
    Ok(Column {
        lo,
        hi,
        visible: shown == 1,
    })
}

// The first n columns.
pub fn columns(from: &mut Cursor, n: usize) -> Result<[Column; COLUMNS], Refusal>
    requires { n ≤ most_columns }
    ensures { Steps (λ cs. map column_of (take n cs)) (λ s p. many (λ cs q. column_at s q) n [] p) from.old result from.new }
{
    let mut columns = [Column {
        lo: 0,
        hi: 0,
        visible: false,
    }; COLUMNS];
    for place in columns[..n].iter_mut() {
        *place = column(from)?;
    }
    Ok(columns)
}

// Is a column visible?
pub fn some_visible(columns: &[Column]) -> bool
    ensures { result ≡ some (visible_from 0 (map column_of columns.now)) }
{
    columns.iter().any(|c| c.visible)
}
