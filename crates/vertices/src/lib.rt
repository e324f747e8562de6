// The vertices of a formula and what they range over.
#![tactic(auto)]

ghost use Rattle.std.specs.Prelude.{◌≡◌, not, ◌&&◌, ◌≤◌, length};
ghost use Rattle.page_meaning.specs.Limits.{most_columns};
ghost use Rattle.question.specs.Held.{column_of};
ghost use Rattle.program.specs.Meanings.{entry_of};
ghost use Rattle.program.specs.Compiled.{Spans, range_if};
ghost use Rattle.vertices.specs.Rows.{row_ranges, ranges_by, Widen, Widens};

use ints::weights::wide;
use limits::VERTICES;
use program::types::{ONLY_ZERO, Range, Vertices};
use question::types::Column;

// A visible column has no vertex of the second row.
pub fn there(second: bool, visible: bool) -> bool
    ensures { result ≡ not (second && visible) }
{
    !(second && visible)
}

// What a column's vertex ranges over, where it is there.
fn entry(second: bool, c: &Column) -> Option<Range>
    ensures { entry_of result ≡ range_if (not (second && c.now.visible)) (column_of c.now).range }
{
    if !there(second, c.visible) {
        return None;
    }
    Some(Range {
        lo: wide(c.lo),
        hi: wide(c.hi),
    })
}

// The next vertices, one for each column.
pub fn row(into: &mut Vertices, columns: &[Column], second: bool)
    requires { Widen into.old (length columns.now) }
    ensures { Widens into.old into.new (length columns.now) (row_ranges second columns.now) }
{
    for c in columns {
        into.ranges[into.count] = entry(second, c);
        into.count += 1;
    }
}

// FORMAT 5.4: zero, the first row's, and where there are two rows the second's.
pub fn vertices(columns: &[Column], pairs: bool) -> Vertices
    requires { length columns.now ≤ most_columns }
    ensures { Spans result (ranges_by pairs columns.now) }
{
    let mut all = Vertices {
        count: 1,
        ranges: [None; VERTICES],
    };
    all.ranges[0] = Some(ONLY_ZERO);
    row(&mut all, columns, false);
    if pairs {
        row(&mut all, columns, true);
    }
    all
}
