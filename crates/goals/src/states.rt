// The goals that wait, the last on top.
ghost use Rattle.std.specs.Prelude.{◌<◌, ◌≡◌, ◌∷◌, []};
ghost use Rattle.page_formulas.specs.Costs.{most_instructions};
ghost use Rattle.goals.specs.Goals.{waiting};

use crate::types::{Goal, State};

impl State {
    pub fn push(&mut self, g: Goal)
        requires { self.old.count < most_instructions }
        ensures { (self.new.near.rows ≡ self.old.near.rows) × (waiting self.new ≡ g ∷ waiting self.old) }
    {
        self.goals[self.count] = g;
        self.count += 1;
    }
}
