// The value that an insert fixes in a column of a no sheet's row: checker and writer ask for it alike.
#![tactic(auto)]

ghost use Rattle.std.specs.Prelude.{◌≡◌, List, [], ◌++◌, map, ℕ, ◌≤◌, ◌<◌, length, get_or, take, replicate};
ghost use Rattle.std.proofs.Math.Option.{none, some};
ghost use Rattle.page_meaning.specs.Limits.{most_columns, most_rows};
ghost use Rattle.question.specs.Held.{row_of, question_with, ShapeHeld};
ghost use Rattle.page_sheets.specs.Rows.{fixed};
ghost use Rattle.inserted.specs.FixedValues.{option_of};

use limits::{COLUMNS, ROWS};
use question::types::{Change, Column, Condition, Row, Shape, Verb, Version};

// One of the inserted rows.
fn row_at(rows: &[Row; ROWS], count: usize, i: usize) -> &Row
    requires { (i < count) × (count ≤ most_rows) }
    ensures { (width : ℕ) → row_of width result.now ≡ get_or (map (row_of width) (take count rows.now)) i [] }
{
    &rows[i]
}

// A row's values, the first of them in column `first`: the one in column c.
fn row_value(values: &[i32; COLUMNS], first: usize, width: usize, c: usize) -> Option<i32>
    requires { width ≤ most_columns }
    ensures { option_of result ≡ get_or (replicate first none ++ map some (take width values.now)) c none }
{
    if c < first {
        return None;
    }
    let j = c - first;
    if width <= j {
        return None;
    }
    Some(values[j])
}

// Column c of the row of formula i: for insert, the changed table's values are the inserted row's. It is the same in every question of
// these tables and this change.
pub fn fixed_at(shape: &Shape, change: &Change, i: usize, c: usize) -> Option<i32>
    requires { ShapeHeld shape.now × (change.now.count ≤ most_rows) }
    ensures { (v : Version) (cs : List Column) (d : Condition) → shape.now.total ≤ length cs → option_of result ≡ fixed (question_with v shape.now cs d change.now) i c }
{
    match change.verb {
        Verb::Insert => {
            let count = change.count;
            if count <= i {
                return None;
            }
            let row = row_at(&change.rows, count, i);
            row_value(&row.values, shape.first, shape.width, c)
        }
        Verb::Delete | Verb::Modify => None,
    }
}
