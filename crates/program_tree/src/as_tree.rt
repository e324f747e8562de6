// What may stand for a tree: one of nodes, or one of rows of numbers.
ghost use Rattle.std.specs.Prelude.{◌-◌, ◌<◌, ◌≡◌};
ghost use Rattle.page_formulas.specs.Costs.{most_instructions};
ghost use Rattle.program.specs.Meanings.{place_of};
ghost use Rattle.program_tree.specs.Nodes.{node, size_at, first_at, place_in, Placed};
ghost use Rattle.program_tree.specs.Numbers.{tree_of};

use crate::types::{Rows, Tree};
use program::types::{Instruction, Place};

// It is read as a tree, node by node.
pub trait AsTree {
    ghost use Rattle.program_tree.specs.declared.types.Tree.{Tree};

    ghost tree: { Self → Tree };

    // The last vertex.
    fn last(&self) -> usize
        ensures { result ≡ (tree self.now).last };

    fn instruction(&self, i: usize) -> Instruction
        requires { i < most_instructions }
        ensures { result ≡ (node (tree self.now).nodes i).instruction };

    // The place that instruction i is.
    fn place(&self, i: usize) -> Place
        requires { (i < most_instructions) × Placed (tree self.now).last (place_in (tree self.now) i) }
        ensures { place_of result ≡ place_in (tree self.now) i };

    // Where the first of its two operands ends.
    fn first(&self, i: usize) -> usize
        requires { (i < most_instructions) × (size_at (tree self.now) (i - 1) < i) }
        ensures { result ≡ first_at (tree self.now) i };
}

impl AsTree for Tree {
    ghost tree = { λ t. t };

    fn last(&self) -> usize {
        self.last
    }

    fn instruction(&self, i: usize) -> Instruction {
        self.nodes[i].instruction
    }

    fn place(&self, i: usize) -> Place {
        self.nodes[i].place
    }

    fn first(&self, i: usize) -> usize {
        self.first_of(i)
    }
}

impl AsTree for Rows {
    ghost tree = { tree_of };

    fn last(&self) -> usize {
        self.last
    }

    fn instruction(&self, i: usize) -> Instruction {
        match self.rows[i].kind {
            0 => Instruction::Place,
            1 => Instruction::And,
            2 => Instruction::Or,
            3 => Instruction::Not,
            4 => Instruction::True,
            _ => Instruction::False,
        }
    }

    fn place(&self, i: usize) -> Place {
        let row = self.rows[i];
        // a vertex is below VERTICES, which is below 2 ^ 8
        Place {
            left: row.left as u8,
            right: row.right as u8,
            most: row.most,
        }
    }

    fn first(&self, i: usize) -> usize {
        i - 1 - self.rows[i - 1].size as usize
    }
}
