// Inserted rows: each value is tested against its column's range.
ghost use Rattle.std.specs.Prelude.{◌≤◌, [], length, map, take};
ghost use Rattle.page_meaning.specs.Limits.{most_rows};
ghost use Rattle.page_questions.specs.Reader.{row_at, many};
ghost use Rattle.question.specs.Held.{row_of};
ghost use Rattle.fields.specs.Steps.{Steps};
ghost use Rattle.changes.specs.Changes.{ranges_in};

use crate::table::Table;
use fields::cursor::Cursor;
use limits::{COLUMNS, ROWS};
use question::types::Row;
use refusal::{Fault, Refusal};

pub(crate) const NO_ROWS: [Row; ROWS] = [Row {
    values: [0; COLUMNS],
}; ROWS];

impl<'a> Table<'a> {
    fn row(&self, from: &mut Cursor) -> Result<Row, Refusal>
        ensures { Steps (row_of (length self.now.columns.now)) (λ s p. row_at s (ranges_in self.now.columns.now) p) from.old result from.new }
    {
        let mut values = [0; COLUMNS];
        for (j, column) in self.columns.iter().enumerate() {
            values[j] = from.number(Fault::Range, column.lo, column.hi)?;
        }
        Ok(Row { values })
    }

    // So many rows.
    pub fn rows(&self, from: &mut Cursor, count: usize) -> Result<[Row; ROWS], Refusal>
        requires { count ≤ most_rows }
        ensures { Steps (λ rs. map (row_of (length self.now.columns.now)) (take count rs)) (λ s p. many (λ rs q. row_at s (ranges_in self.now.columns.now) q) count [] p) from.old result from.new }
    {
        let mut rows = NO_ROWS;
        for row in rows[..count].iter_mut() {
            *row = self.row(from)?;
        }
        Ok(rows)
    }
}
