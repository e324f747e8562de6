// The check of one formula's tree: recursion on the places left.
ghost use Rattle.std.specs.Prelude.{◌≡◌, ℕ, ◌+◌, ◌<◌, [], ◌∷◌, ◌++◌, length, get_or, drop};
ghost use Rattle.page_meaning.specs.Limits.{most_decisions};
ghost use Rattle.page_walks.specs.Grid.{far};
ghost use Rattle.page_formulas.specs.Formulas as spec;
ghost use Rattle.grid.specs.Facts.{with_fact};
ghost use Rattle.facts.specs.Decisions.{fact_of};
ghost use Rattle.program.specs.Compiled.{Compiled, Fine};
ghost use Rattle.program.specs.Meanings.{place_of};
ghost use Rattle.checker_nodes.specs.Nodes.{outcome_of};
ghost use Rattle.checker_trees.specs.Checks.{check_from, Reached};

use checker_nodes::{cycle, false_leaf};
use facts::added;
use grid::{Edge, FAR, Grid};
use program::types::{Formula, Place};
use refusal::{Fault, Refusal};
use truth::decisions::Truths;

// Where the check of a tree stands: its position in the part that is lent, the decisions so far, and the fact of the last of them. It isn't
// in the grid yet: only a node 3 needs the grid with it.
#[derive(Clone, Copy)]
pub struct Stage {
    pub at: usize,
    pub truths: Truths,
    pub last: Edge,
}

impl Stage {
    // No place is decided yet, and the fact of none is a missing edge's.
    pub fn first(at: usize) -> Stage
        ensures { result ≡ record { at = at; truths = []; last = record { from = 0; to = 0; weight = far } } }
    {
        Stage {
            at,
            truths: Truths::new(),
            last: Edge {
                from: 0,
                to: 0,
                weight: FAR,
            },
        }
    }

    // The stage after one decision more.
    fn decide(&self, place: Place, truth: bool, at: usize) -> Stage
        requires { length self.now.truths < most_decisions }
        ensures { result ≡ record { at = at; truths = self.now.truths ++ truth ∷ []; last = fact_of (place_of place) truth } }
    {
        Stage {
            at,
            truths: self.truths.with(truth),
            last: added(place, truth),
        }
    }
}

// Node 3, which takes the first place left as true, then as false: the grid with the last fact serves both.
#[cycle(branch_tree)]
fn branch(f: &Formula, part: &[u8], g: &Grid, stage: &Stage) -> Result<usize, Refusal>
    requires reached { Fine f.now × Reached f.now g.now.rows stage.now }
    requires node { (length stage.now.truths < f.now.program.decisions) × (stage.now.at < length part.now) × (get_or part.now stage.now.at 0 ≡ 3) }
    ensures { (F : spec.Formula) (base : ℕ) → Compiled f.now F → outcome_of base part.now result ≡ check_from F stage.now.truths (with_fact g.now.rows stage.now.last) (base + stage.now.at) (drop stage.now.at part.now) }
{
    let place = f.program.places[stage.truths.count()];
    let facts = g.tighten(stage.last);
    let middle = tree(f, part, &facts, &stage.decide(place, true, stage.at + 1))?;
    tree(f, part, &facts, &stage.decide(place, false, middle))
}

// The tree at a stage.
#[cycle(branch_tree)]
pub fn tree(f: &Formula, part: &[u8], g: &Grid, stage: &Stage) -> Result<usize, Refusal>
    requires { Fine f.now × Reached f.now g.now.rows stage.now }
    ensures { (F : spec.Formula) (base : ℕ) → Compiled f.now F → outcome_of base part.now result ≡ check_from F stage.now.truths (with_fact g.now.rows stage.now.last) (base + stage.now.at) (drop stage.now.at part.now) }
{
    let at = stage.at;
    if part.len() <= at {
        return Err(Fault::SheetShort.at(at));
    }
    // Here a node's first byte, a number of the format, becomes a case.
    match part[at] {
        1 => false_leaf(f.program.instructions(), stage.truths.so_far(), at),
        2 => cycle(&f.vertices.ranges, g, stage.last, part, at),
        3 if stage.truths.count() < f.program.decisions => branch(f, part, g, stage),
        3 => Err(Fault::SheetFalse.at(at)),
        _ => Err(Fault::SheetCode.at(at)),
    }
}
