// Whether a compiled formula is true at the values of a no sheet.
ghost use Rattle.std.specs.Prelude.{◌≡◌, ◌≤◌, ◌<◌, length};
ghost use Rattle.page_meaning.specs.Contents as meant;
ghost use Rattle.page_meaning.specs.Limits.{most_vertices};
ghost use Rattle.page_formulas.specs.Program.{truth};
ghost use Rattle.page_formulas.specs.Formulas as spec;
ghost use Rattle.page_sheets.specs.Rows.{fields, field_at, read_values};
ghost use Rattle.program.specs.Compiled.{Compiled, Fine};

use crate::values::{met, values};
use program::types::Formula;

// Is a formula true at the values of a no sheet, which has so many?
pub fn formula_met(f: &Formula, sheet: &[u8], count: usize) -> bool
    requires { Fine f.now × (count < most_vertices) × (field_at count ≤ length sheet.now) }
    ensures { (F : spec.Formula) (q : meant.Question) → Compiled f.now F → count ≡ fields q F → result ≡ truth (read_values q F sheet.now) F.program }
{
    let program = &f.program;
    met(
        program.instructions(),
        program.places(),
        &values(sheet, count),
    )
}
