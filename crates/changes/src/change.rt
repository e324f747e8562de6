// The change: inserted rows, or a condition, or a condition and modes.
ghost use Rattle.std.specs.Prelude.{◌+◌, ◌≤◌, ◌≡◌, length};
ghost use Rattle.page_meaning.specs.Limits.{most_columns};
ghost use Rattle.page_questions.specs.Reader.{insert_at, delete_at, modify_at, change_at};
ghost use Rattle.question.specs.Held.{ChangeHeld, change_of, verb_number};
ghost use Rattle.refusal.specs.Outcomes.{IfValue};
ghost use Rattle.fields.specs.Steps.{Steps};
ghost use Rattle.changes.specs.Changes.{ranges_in};

use crate::modes::{KEPT, modes};
use crate::rows::NO_ROWS;
use crate::table::Table;
use fields::cursor::Cursor;
use limits::PAST_ROWS;
use question::types::{Change, Column, Verb};
use refusal::{Fault, Refusal};
use tokens::condition::{always, condition};

// A change of this kind that has no row, no token and keeps every column.
fn blank(verb: Verb) -> Change
    ensures verb { result.verb ≡ verb }
    ensures held { ChangeHeld result }
{
    Change {
        verb,
        rows: NO_ROWS,
        count: 0,
        condition: always(),
        settings: KEPT,
    }
}

impl<'a> Table<'a> {
    fn insert(&self, from: &mut Cursor) -> Result<Change, Refusal>
        ensures meaning { Steps (change_of (length self.now.columns.now)) (λ s p. insert_at s (ranges_in self.now.columns.now) p) from.old result from.new }
        ensures held { IfValue result ChangeHeld }
    {
        let count = from.byte(Fault::Code, 0, PAST_ROWS)? as usize;
        let rows = self.rows(from, count)?;
        Ok(Change {
            rows,
            count,
            ..blank(Verb::Insert)
        })
    }

    fn delete(&self, from: &mut Cursor) -> Result<Change, Refusal>
        ensures meaning { Steps (change_of (length self.now.columns.now)) (λ s p. delete_at s self.now.first (self.now.first + length self.now.columns.now) p) from.old result from.new }
        ensures held { IfValue result ChangeHeld }
    {
        let names = self.names();
        let condition = condition(from, names.low, names.high)?;
        Ok(Change {
            condition,
            ..blank(Verb::Delete)
        })
    }

    fn modify(&self, from: &mut Cursor) -> Result<Change, Refusal>
        ensures meaning { Steps (change_of (length self.now.columns.now)) (λ s p. modify_at s self.now.first (length self.now.columns.now) p) from.old result from.new }
        ensures held { IfValue result ChangeHeld }
    {
        let names = self.names();
        let condition = condition(from, names.low, names.high)?;
        let settings = modes(from, names, self.columns.len())?;
        Ok(Change {
            condition,
            settings,
            ..blank(Verb::Modify)
        })
    }
}

// A change of this kind, of the table that has these columns, numbered from `first` on.
pub fn change(
    from: &mut Cursor,
    verb: Verb,
    columns: &[Column],
    first: usize,
) -> Result<Change, Refusal>
    requires { first + length columns.now ≤ most_columns }
    ensures meaning { Steps (change_of (length columns.now)) (λ s p. change_at s (verb_number verb) first (ranges_in columns.now) p) from.old result from.new }
    ensures held { IfValue result ChangeHeld }
{
    let table = Table { columns, first };
    match verb {
        Verb::Insert => table.insert(from),
        Verb::Delete => table.delete(from),
        Verb::Modify => table.modify(from),
    }
}
