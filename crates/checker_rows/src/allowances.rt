// FORMAT 8.3: which values may stand in a no sheet's fields: in range, and the inserted or the shared visible one where there is one.
ghost use Rattle.std.specs.Prelude.{◌≡◌, ◌&&◌, ◌||◌, not, ◌+◌, ◌≤◌, ◌<◌, length};
ghost use Rattle.page_meaning.specs.Condition.{holds, equal};
ghost use Rattle.question.specs.Held.{question_of};
ghost use Rattle.page_formulas.specs.Formulas.{among};
ghost use Rattle.page_sheets.specs.Rows.{in_column, fixed, matches, first_ok, field_at, value_at, field_ok};

use crate::layout::field_at;
use inserted::fixed_at;
use question::types::Question;
use sights::terms::whole;

fn same(a: i32, b: i32) -> bool
    ensures { result ≡ holds equal a b }
{
    a == b
}

// Does column c take a value? That c is a column stays a clause, here and below: a number doesn't know the question.
fn in_column(q: &Question, c: usize, z: i32) -> bool
    requires { c < q.now.shape.total }
    ensures { result ≡ in_column (question_of q.now) c z }
{
    let column = &q.columns[c];
    z <= column.hi && column.lo <= z
}

// The inserted value, where there is one.
fn change_allows(q: &Question, i: usize, c: usize, z: i32) -> bool
    ensures { result ≡ matches (fixed (question_of q.now) i c) z }
{
    whole(q);
    match fixed_at(&q.shape, &q.change, i, c) {
        None => true,
        Some(k) => same(z, k),
    }
}

// Column c of the first row, for formula i.
fn first_allows(q: &Question, i: usize, c: usize, z: i32) -> bool
    requires { c < q.now.shape.total }
    ensures { result ≡ first_ok (question_of q.now) i c z }
{
    in_column(q, c, z) && change_allows(q, i, c, z)
}

// Column c of the second row, where the first has this value there.
fn second_allows(q: &Question, c: usize, z: i32, shared: i32) -> bool
    requires { c < q.now.shape.total }
    ensures { result ≡ (in_column (question_of q.now) c z && (not (among (question_of q.now).visible c) || holds equal z shared)) }
{
    in_column(q, c, z) && (!q.columns[c].visible || same(z, shared))
}

// Field j of a no sheet for formula i.
pub fn field_allows(q: &Question, i: usize, sheet: &[u8], j: usize) -> bool
    requires { (j < q.now.shape.total + q.now.shape.total) × (field_at j + 4 ≤ length sheet.now) }
    ensures { result ≡ field_ok (question_of q.now) i sheet.now j (value_at sheet.now j) }
{
    whole(q);
    let z = ints::read_i32(sheet, field_at(j));
    let n = q.shape.total;
    if j < n {
        return first_allows(q, i, j, z);
    }
    let c = j - n;
    let shared = ints::read_i32(sheet, field_at(c));
    second_allows(q, c, z, shared)
}
