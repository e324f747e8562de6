// A program is written instruction by instruction, each step after what stands there.
ghost use Rattle.std.specs.Prelude.{◌≡◌, ◌≤◌, [], ◌∷◌};
ghost use Rattle.page_meaning.specs.Limits.{most_decisions};
ghost use Rattle.page_meaning.specs.Condition.{equal};
ghost use Rattle.page_formulas.specs.Kinds.{kind_of};
ghost use Rattle.page_formulas.specs.Program.{place};
ghost use Rattle.page_formulas.specs.Costs.{most_instructions};
ghost use Rattle.page_formulas.specs.Compilation.{at_most_place, below_place, comparison};
ghost use Rattle.question.specs.Held.{op_of};
ghost use Rattle.program.specs.Meanings.{instr_of, place_of, term_of, instructions_of, places_of, Bare};
ghost use Rattle.program.specs.Built.{Long, Room, Builds, Means};

use crate::types::{Formula, Instruction, NOWHERE, Place, Program, Term, Vertices};
use ints::weights::{difference, sum};
use limits::{INSTRUCTIONS, PLACES, VERTICES};
use question::types::Op;

// An instruction's number, as the pages number them: the variants stand in that order. Nothing here calls it: it stands for its contract.
pub fn kind(i: Instruction) -> u8
    ensures { result ≡ kind_of (instr_of i) }
{
    i as u8
}

impl Program {
    // Room for a program: no instruction yet.
    pub const EMPTY: Program = Program {
        instructions: [Instruction::True; INSTRUCTIONS],
        length: 0,
        places: [NOWHERE; PLACES],
        decisions: 0,
    };

    // No instruction any more.
    pub fn clear(&mut self)
        ensures { Means self.new [] × Long self.new }
    {
        self.length = 0;
        self.decisions = 0;
    }

    pub fn instructions(&self) -> &[Instruction]
        requires { self.now.length ≤ most_instructions }
        ensures { result.now ≡ instructions_of self.now }
    {
        &self.instructions[..self.length]
    }

    pub fn places(&self) -> &[Place]
        requires { self.now.decisions ≤ most_decisions }
        ensures { result.now ≡ places_of self.now }
    {
        &self.places[..self.decisions]
    }

    // An instruction that is no place. `emit_place` stands beside it: neither contract says the other, and one for both would be no plainer.
    pub fn emit(&mut self, i: Instruction)
        requires { Room self.old 1 0 × Bare i }
        ensures { Builds self.old self.new 1 0 (instr_of i ∷ []) }
    {
        self.instructions[self.length] = i;
        self.length += 1;
    }

    pub fn emit_place(&mut self, p: Place)
        requires { Room self.old 1 1 }
        ensures { Builds self.old self.new 1 1 (place (place_of p) ∷ []) }
    {
        self.instructions[self.length] = Instruction::Place;
        self.length += 1;
        self.places[self.decisions] = p;
        self.decisions += 1;
    }

    // l ≤ r. `Room` stays a clause, here and below: its numbers differ at each call.
    pub fn at_most(&mut self, l: Term, r: Term)
        requires { Room self.old 1 1 }
        ensures { Builds self.old self.new 1 1 (place (at_most_place (term_of l) (term_of r)) ∷ []) }
    {
        self.emit_place(Place {
            left: l.vertex,
            right: r.vertex,
            most: difference(r.offset, l.offset),
        });
    }

    // l < r
    pub fn below(&mut self, l: Term, r: Term)
        requires { Room self.old 1 1 }
        ensures { Builds self.old self.new 1 1 (place (below_place (term_of l) (term_of r)) ∷ []) }
    {
        let k = difference(r.offset, l.offset);
        self.emit_place(Place {
            left: l.vertex,
            right: r.vertex,
            most: sum(k, -1),
        });
    }

    // l ≤ r and r ≤ l
    pub fn same(&mut self, l: Term, r: Term)
        requires { Room self.old 3 2 }
        ensures { Builds self.old self.new 3 2 (comparison equal (term_of l) (term_of r)) }
    {
        self.at_most(l, r);
        self.at_most(r, l);
        self.emit(Instruction::And);
    }

    pub fn compare(&mut self, op: Op, l: Term, r: Term)
        requires { Room self.old 4 2 }
        ensures { Builds self.old self.new 4 2 (comparison (op_of op) (term_of l) (term_of r)) }
    {
        match op {
            Op::Less => self.below(l, r),
            Op::AtMost => self.at_most(l, r),
            Op::Equal => self.same(l, r),
            Op::AtLeast => self.at_most(r, l),
            Op::More => self.below(r, l),
            Op::Unequal => {
                self.same(l, r);
                self.emit(Instruction::Not);
            }
        }
    }
}

impl Formula {
    // Room for a formula: no instruction and no vertex yet.
    pub const EMPTY: Formula = Formula {
        program: Program::EMPTY,
        pairs: false,
        vertices: Vertices {
            count: 0,
            ranges: [None; VERTICES],
        },
    };
}
