// A formula's first open leaf, by going down once: at each node into the true half where the formula is open there, else into the false
// half. The tableau tells, so no tree is walked.
#![tactic(auto)]

ghost use Rattle.std.specs.Prelude.{◌≡◌, suc, ◌<◌, T};
ghost use Rattle.page_formulas.specs.Formulas as written;
ghost use Rattle.page_formulas.specs.Program.{Program, Values};
ghost use Rattle.page_formulas.specs.ProperFormulas.{Proper};
ghost use Rattle.page_formulas.specs.Vertices.{present};
ghost use Rattle.program.specs.Compiled.{Compiled};
ghost use Rattle.page_sheets.specs.Growth.{grow_tree, open_at};
ghost use Rattle.page_sheets.specs.Sheet.{last_vertex};
ghost use Rattle.program_tree.specs.Nodes.{Tells};
ghost use Rattle.writer_leaves.specs.Leaves.{Tries, Triable, Opening, Descendable, Leaf, FineOpen};

use closure::relax_in;
use facts::added;
use goals::entering::contradicts;
use grid::{Edge, Grid};
use limits::VERTICES;
use program::types::{Formula, Instruction, Place};
use program_tree::types::Tree;
use spreads::begin;
use tableau::openings::opens_under;
use truth::decisions::Truths;
use truth::truths::{Truth, known};

// The closure with one fact more, where the formula is open under it.
fn opens_with(tree: &Tree, near: &Grid, e: Edge) -> Option<Grid>
    requires { Triable tree.now near.now.rows e }
    ensures { (p : Program) → Tells tree.now p → Tries result p tree.now.last near.now.rows e }
{
    if contradicts(near, tree.last, e) {
        return None;
    }
    let mut closer = *near;
    relax_in(&mut closer, tree.last + 1, e);
    opens_under(tree, &closer)?;
    Some(closer)
}

// The leaf's values, from the closure of the facts at the root.
fn descend(
    instructions: &[Instruction],
    places: &[Place],
    tree: &Tree,
    root: &Grid,
) -> [i64; VERTICES]
    requires { Descendable instructions.now places.now tree.now root.now.rows }
    ensures { (F : written.Formula) (x : Values) → Opening instructions.now places.now tree.now root.now.rows F x → Leaf (λ v. v < suc tree.now.last) x result }
{
    let mut near = *root;
    let mut truths = Truths::new();
    for place in places {
        if known(instructions, truths.so_far()) == Truth::Passes {
            return near.rows[0];
        }
        match opens_with(tree, &near, added(*place, true)) {
            Some(closer) => {
                near = closer;
                truths = truths.with(true);
            }
            None => {
                let e = added(*place, false);
                relax_in(&mut near, tree.last + 1, e);
                truths = truths.with(false);
            }
        }
    }
    near.rows[0]
}

// The same of a compiled formula.
pub fn first_leaf(f: &Formula) -> [i64; VERTICES]
    requires { FineOpen f.now }
    ensures { (F : written.Formula) (x : Values) → Compiled f.now F → Proper F → grow_tree last_vertex F ≡ open_at x → Leaf (λ v. T (present F.ranges v)) x result }
{
    let mut near = Grid::blank();
    begin(&mut near, &f.vertices);
    let mut tree = Tree::EMPTY;
    tree.plant(&f.program, f.vertices.count - 1);
    descend(f.program.instructions(), f.program.places(), &tree, &near)
}
