// The stack on which a formula's truths are joined: contracts see it as the list of its values, the top first.
ghost use Rattle.std.specs.Prelude.{◌≡◌, ◌<◌, ◌≤◌, ◌∷◌, [], length};
ghost use Rattle.page_formulas.specs.Costs.{most_instructions};
ghost use Rattle.page_formulas.specs.Knowledge.{Three, and3, or3, not3, top3};
ghost use Rattle.page_formulas.specs.Program.{one, two};
ghost use Rattle.truth.specs.Values.{three_of};

use crate::truths::Truth;
use limits::INSTRUCTIONS;
use std::marker::Model;

// `height` values: the top stands apart, those below it in cells 1, 2, ..; with no value the top passes.
#[derive(Drop)]
pub struct Stack {
    top: Truth,
    cells: [Truth; INSTRUCTIONS],
    height: usize,
}

impl Model for Stack {
    ghost use Rattle.std.specs.Prelude.{List, ◌≡◌, ◌≤◌, length};
    ghost use Rattle.page_formulas.specs.Costs.{most_instructions};
    ghost use Rattle.page_formulas.specs.Knowledge.{Three};
    ghost use Rattle.truth.specs.declared.truths.Truth.TheVariants.{Passes};
    ghost use Rattle.truth.specs.Values.{values};

    ghost Value = { List Three };

    ghost view = { λ s. values s.cells s.top s.height };

    ghost invariant = { λ s. (s.height ≤ most_instructions) × (s.height ≡ 0 → s.top ≡ Passes) };
}

impl Stack {
    pub fn new() -> Stack
        ensures { result ≡ [] }
    {
        Stack {
            top: Truth::Passes,
            cells: [Truth::Fails; INSTRUCTIONS],
            height: 0,
        }
    }

    pub fn top(&self) -> Truth
        ensures { three_of result ≡ top3 self.now }
    {
        self.top
    }

    pub fn push(&mut self, value: Truth)
        requires { length self.old < most_instructions }
        ensures { self.new ≡ three_of value ∷ self.old }
    {
        self.cells[self.height] = self.top;
        self.top = value;
        self.height += 1;
    }

    pub fn not(&mut self)
        ensures { self.new ≡ one not3 self.old }
    {
        if 1 <= self.height {
            self.top = self.top.not();
        }
    }

    pub fn and(&mut self)
        ensures { self.new ≡ two and3 self.old }
    {
        if 2 <= self.height {
            self.height -= 1;
            self.top = self.cells[self.height].and(self.top);
        }
    }

    pub fn or(&mut self)
        ensures { self.new ≡ two or3 self.old }
    {
        if 2 <= self.height {
            self.height -= 1;
            self.top = self.cells[self.height].or(self.top);
        }
    }
}
