// Whether a formula is true at some values: in range, or such that meet given facts.
ghost use Rattle.std.specs.Prelude.{suc, ◌≡◌, []};
ghost use Rattle.page_formulas.specs.Program.{Program};
ghost use Rattle.page_formulas.specs.Formulas as written;
ghost use Rattle.page_formulas.specs.ProperFormulas.{Proper};
ghost use Rattle.program.specs.Compiled.{Compiled, Fine};
ghost use Rattle.program_tree.specs.Nodes.{Tells};
ghost use Rattle.goals.specs.Closures.{Tight};
ghost use Rattle.goals.specs.Goals.{waiting, TrueAt, TrueUnder, Opens};

use crate::search::solve;
use goals::types::{NO_GOAL, State};
use grid::Grid;
use limits::{INSTRUCTIONS, VERTICES};
use program::types::Formula;
use program_tree::types::Tree;
use spreads::begin;

// Of a tree, under the facts of a state in which no goal waits.
fn open(tree: &Tree, state: &mut State) -> Option<[i64; VERTICES]>
    requires { ((p : Program) × Tells tree.now p) × Tight (suc tree.now.last) state.old.near.rows × (waiting state.old ≡ []) }
    ensures { (p : Program) → Tells tree.now p → Opens result (TrueUnder p tree.now.last state.old.near.rows) }
{
    solve(tree, state, tree.count - 1, true).ok()
}

// Of a formula's tree, under the facts of a closure.
pub fn opens_under(tree: &Tree, near: &Grid) -> Option<[i64; VERTICES]>
    requires { ((p : Program) × Tells tree.now p) × Tight (suc tree.now.last) near.now.rows }
    ensures { (p : Program) → Tells tree.now p → Opens result (TrueUnder p tree.now.last near.now.rows) }
{
    let mut state = State {
        near: *near,
        goals: [NO_GOAL; INSTRUCTIONS],
        count: 0,
    };
    open(tree, &mut state)
}

// Of a compiled formula, under the facts of its ranges. `Fine` stays a clause, here, in the writer and in the checker: a formula is made in
// a place that is lent, and isn't fine while it is made.
pub fn formula_opens(f: &Formula) -> Option<[i64; VERTICES]>
    requires { Fine f.now }
    ensures { (F : written.Formula) → Compiled f.now F → Proper F → Opens result (TrueAt F) }
{
    let mut tree = Tree::EMPTY;
    tree.plant(&f.program, f.vertices.count - 1);
    // made in place, since a state that a function returns is copied
    let mut state = State {
        near: Grid {
            rows: [[0; VERTICES]; VERTICES],
        },
        goals: [NO_GOAL; INSTRUCTIONS],
        count: 0,
    };
    begin(&mut state.near, &f.vertices);
    open(&tree, &mut state)
}
