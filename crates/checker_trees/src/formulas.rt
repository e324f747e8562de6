// The check of a compiled formula's tree.
ghost use Rattle.std.specs.Prelude.{◌≡◌, ℕ};
ghost use Rattle.page_meaning.specs.Limits.{most_vertices};
ghost use Rattle.page_formulas.specs.Formulas as spec;
ghost use Rattle.page_sheets.specs.Tree.{check_tree};
ghost use Rattle.program.specs.Compiled.{Compiled, Fine};
ghost use Rattle.checker_nodes.specs.Nodes.{outcome_of};

use crate::trees::{Stage, tree};
use facts::start;
use program::types::Formula;
use refusal::Refusal;

// A formula's tree at the start of the part that is lent.
pub fn formula_tree(f: &Formula, part: &[u8]) -> Result<usize, Refusal>
    requires { Fine f.now }
    ensures { (F : spec.Formula) (base : ℕ) → Compiled f.now F → outcome_of base part.now result ≡ check_tree most_vertices F base part.now }
{
    tree(f, part, &start(&f.vertices), &Stage::first(0))
}
