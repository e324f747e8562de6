// The tables' column counts, and the shape that they give.
ghost use Rattle.std.specs.Prelude.{◌≤◌, ◌<◌, ◌≡◌, [], take};
ghost use Rattle.page_meaning.specs.Limits.{most_tables, most_columns};
ghost use Rattle.page_questions.specs.Layout.{total};
ghost use Rattle.page_questions.specs.Reader.{width_at, many};
ghost use Rattle.question.specs.Held.{ShapeHeld, widths_of};
ghost use Rattle.fields.specs.Steps.{Steps};
ghost use Rattle.refusal.specs.Outcomes.{IfValue};
ghost use Rattle.tables.specs.Shapes.{Counted};

use fields::cursor::Cursor;
use limits::{PAST_COLUMNS, TABLES};
use question::types::Shape;
use refusal::{Fault, Refusal};

// The column counts of n tables: a table has a column, and together they have no more than there may be.
pub fn widths(from: &mut Cursor, n: usize) -> Result<[usize; TABLES], Refusal>
    requires { n ≤ most_tables }
    ensures meaning { Steps (λ ws. take n ws) (λ s p. many (width_at most_columns s) n [] p) from.old result from.new }
    ensures counted { IfValue result (Counted n) }
{
    let mut widths = [0; TABLES];
    let mut total = 0;
    // by an index: the total beside is that of the first i
    for i in 0..n {
        let width = from.byte(Fault::Code, 1, PAST_COLUMNS - total)? as usize;
        widths[i] = width;
        total += width;
    }
    Ok(widths)
}

// How many columns tables of these widths have.
fn total(widths: &[usize]) -> usize
    requires { total widths.now ≤ most_columns }
    ensures { result ≡ total widths.now }
{
    widths.iter().sum()
}

// The shape of n tables of these widths.
pub fn shape(widths: [usize; TABLES], n: usize, changed: usize) -> Shape
    requires counted { Counted n widths }
    requires changed_lt_n { changed < n }
    ensures shape_held { ShapeHeld result }
    ensures result_value { widths_of result ≡ take n widths }
    ensures changed_value { result.changed ≡ changed }
{
    Shape {
        tables: n,
        changed,
        widths,
        first: total(&widths[..changed]),
        width: widths[changed],
        total: total(&widths[..n]),
    }
}
