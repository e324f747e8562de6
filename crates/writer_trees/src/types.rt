// The declared type.
ghost use Rattle.std.specs.Prelude.{suc, ◌≤◌, ◌≡◌, length};
ghost use Rattle.page_formulas.specs.Costs.{most_instructions};
ghost use Rattle.goals.specs.Closures.{Tight};
ghost use Rattle.grid.specs.Edges.{Kept};
ghost use Rattle.writer_trees.specs.Places.{Placing};

use grid::Grid;
use program::types::{Instruction, Place};
use truth::decisions::Truths;
use truth::truths::{Truth, known};

// What a node grows from, and all below it: a formula's instructions and places, the last of its vertices, the facts so far and their
// closure.
#[derive(Clone, Copy)]
pub struct Ground<'a> {
    pub instructions: &'a [Instruction],
    pub places: &'a [Place],
    pub last: usize,
    pub facts: &'a Grid,
    pub near: &'a Grid,
    pub ghost short: { length instructions.now ≤ most_instructions },
    pub ghost placing: { Placing last places.now },
    pub ghost kept: { Kept facts.now.rows },
    pub ghost tight: { Tight (suc last) near.now.rows },
}

impl<'a> Ground<'a> {
    ghost use Rattle.std.specs.Prelude.{map};
    ghost use Rattle.page_formulas.specs.Formulas.{Formula};
    ghost use Rattle.page_formulas.specs.Kinds.{known_kinds};
    ghost use Rattle.page_formulas.specs.Knowledge.{known};
    ghost use Rattle.program.specs.Lent.{Lent};
    ghost use Rattle.program.specs.Meanings.{number_of};
    ghost use Rattle.truth.specs.Values.{three_of};

    // What is known of the formula under the truths so far.
    pub fn known(&self, truths: &Truths) -> Truth
        ensures numbers { three_of result ≡ known_kinds (map number_of self.now.instructions.now) truths.now }
        ensures lent { (F : Formula) → Lent F.program self.now.instructions.now self.now.places.now → three_of result ≡ known F.program truths.now }
    {
        known(self.instructions, truths.so_far())
    }
}
