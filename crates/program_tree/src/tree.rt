// The tree, from a program.
ghost use Rattle.std.specs.Prelude.{◌-◌, ◌<◌, ◌≡◌};
ghost use Rattle.page_formulas.specs.Costs.{most_instructions};
ghost use Rattle.program.specs.Meanings.{number_of};
ghost use Rattle.program_tree.specs.Nodes.{size_at, first_at, size_for, Reading, Plantable, Filled, Planted};

use crate::types::{Node, Tree};
use limits::INSTRUCTIONS;
use program::types::{Instruction, NOWHERE, Program};

// What stands where there is no instruction.
const BLANK: Node = Node {
    instruction: Instruction::Place,
    size: 0,
    place: NOWHERE,
};

impl Tree {
    // Room for a tree: no node yet. An array and a count, since nothing here takes memory from a heap.
    pub const EMPTY: Tree = Tree {
        nodes: [BLANK; INSTRUCTIONS],
        count: 0,
        last: 0,
    };

    // Of a program, with the last vertex of its formula, in the place of what stood there.
    pub fn plant(&mut self, program: &Program, last: usize)
        requires { Plantable program.now }
        ensures { Planted program.now last self.new }
    {
        self.count = program.length;
        self.last = last;
        self.fill(program);
    }

    // The nodes of a program.
    fn fill(&mut self, program: &Program)
        requires { Plantable program.now }
        ensures { Filled program.now self.new.nodes program.now.length × (self.new.count ≡ self.old.count) × (self.new.last ≡ self.old.last) }
    {
        let mut next = 0;
        // by an index: an instruction's operands are nodes before its own
        for i in 0..program.length {
            let instruction = program.instructions[i];
            let size = self.size(instruction, i);
            let mut place = NOWHERE;
            if instruction == Instruction::Place {
                place = program.places[next];
                next += 1;
            }
            self.nodes[i] = Node {
                instruction,
                size,
                place,
            };
        }
    }

    // How many instructions there are in the one that comes at i and its operands, which stand before it.
    fn size(&self, instruction: Instruction, i: usize) -> u16
        requires { Reading self.now (number_of instruction) i }
        ensures { result ≡ size_for self.now (number_of instruction) i }
    {
        match instruction {
            Instruction::Place | Instruction::True | Instruction::False => 1,
            Instruction::Not => self.nodes[i - 1].size + 1,
            Instruction::And | Instruction::Or => {
                self.nodes[self.first_of(i)].size + self.nodes[i - 1].size + 1
            }
        }
    }

    // Where the first of instruction i's two operands ends.
    pub fn first_of(&self, i: usize) -> usize
        requires { (i < most_instructions) × (size_at self.now (i - 1) < i) }
        ensures { result ≡ first_at self.now i }
    {
        i - 1 - self.nodes[i - 1].size as usize
    }
}
