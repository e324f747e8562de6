// The declared types.
use limits::INSTRUCTIONS;
use program::types::{Instruction, Place};

// An instruction, how many instructions there are in it and its operands, and which place it is where it is one: beside the instruction, as
// in a program, since sizes, kinds and truths are read by the instruction alone.
#[derive(Clone, Copy)]
pub struct Node {
    pub instruction: Instruction,
    pub size: u16,
    pub place: Place,
}

// A program, its first `count` nodes, and its formula's last vertex. It is written in postfix order, so an instruction's last operand
// ends right before it, and the one before that where the last one starts.
#[derive(Clone, Copy)]
pub struct Tree {
    pub nodes: [Node; INSTRUCTIONS],
    pub count: usize,
    pub last: usize,
}

// A node with numbers in the place of the declared words: any u16 for the instruction, of which 0 to 5 are its numbers and a greater one
// does what 5 does; and a place's two vertices.
#[derive(Clone, Copy)]
pub struct Row {
    pub kind: u16,
    pub size: u16,
    pub left: u16,
    pub right: u16,
    pub most: i64,
}

// The same tree of such nodes.
#[derive(Clone, Copy)]
pub struct Rows {
    pub rows: [Row; INSTRUCTIONS],
    pub count: usize,
    pub last: usize,
}
