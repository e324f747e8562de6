// Whether a formula is true at given values of its vertices: every place is tested, and so the formula is known.
ghost use Rattle.std.specs.Prelude.{◌≡◌, ℕ, ◌≤◌, ◌<◌, length, get_or, pos, ◌+ℤ◌};
ghost use Rattle.std.specs.Int.Signed.{le_z};
ghost use Rattle.page_meaning.specs.Limits.{most_vertices};
ghost use Rattle.page_walks.specs.Sizes.{Bounded, least_weight};
ghost use Rattle.page_formulas.specs.Costs.{most_instructions};
ghost use Rattle.page_formulas.specs.Program as spec;
ghost use Rattle.page_formulas.specs.Formulas.{Formula};
ghost use Rattle.page_sheets.specs.Rows.{field_at};
ghost use Rattle.program.specs.Lent.{Lent, Places};
ghost use Rattle.checker_rows.specs.NoSheet.{seen, Tested};

use crate::layout::field_at;
use limits::{PLACES, VERTICES};
use program::types::{Instruction, Place};
use truth::truths::{Truth, known};

// 0 at vertex 0, field j at vertex 1 + j.
pub fn values(sheet: &[u8], count: usize) -> [i32; VERTICES]
    requires { (count < most_vertices) × (field_at count ≤ length sheet.now) }
    ensures { (v : ℕ) → get_or result v (pos 0) ≡ seen sheet.now count v }
{
    let mut x = [0i32; VERTICES];
    // by an index: the format numbers the fields, and each vertex follows from its field
    for j in 0..count {
        x[j + 1] = ints::read_i32(sheet, field_at(j));
    }
    x
}

// Does left − right ≤ most hold at the values?
fn holds(place: Place, values: &[i32; VERTICES]) -> bool
    requires { (place.left < most_vertices) × (place.right < most_vertices) × Bounded least_weight place.most }
    ensures { result ≡ le_z (get_or values.now place.left (pos 0)) (get_or values.now place.right (pos 0) +ℤ place.most) }
{
    let left = i64::from(values[place.left as usize]);
    let right = i64::from(values[place.right as usize]);
    left <= right + place.most
}

// Every place's truth.
fn decisions(places: &[Place], values: &[i32; VERTICES]) -> [bool; PLACES]
    requires { Places places.now }
    ensures { Tested values.now places.now result }
{
    let mut truths = [false; PLACES];
    // the truths by an index: no contract says what is written where iterators are zipped
    for (i, place) in places.iter().enumerate() {
        truths[i] = holds(*place, values);
    }
    truths
}

// Is the formula true at the values?
pub fn met(instructions: &[Instruction], places: &[Place], values: &[i32; VERTICES]) -> bool
    requires { (length instructions.now ≤ most_instructions) × Places places.now }
    ensures { (F : Formula) (x : spec.Values) → Lent F.program instructions.now places.now → ((v : ℕ) → get_or values.now v (pos 0) ≡ x v) → result ≡ spec.truth x F.program }
{
    let truths = decisions(places, values);
    matches!(known(instructions, &truths[..places.len()]), Truth::Passes)
}
