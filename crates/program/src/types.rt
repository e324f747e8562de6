// The declared types: a formula as the product holds it. specs/Built and specs/Compiled say what they mean.
ghost use Rattle.std.specs.Prelude.{pos, neg_ℤ, ◌≤ℤ◌};

use limits::{INSTRUCTIONS, PLACES, VERTICES};

// What an instruction does: a place pushes its truth; the others work on the truths before them, or push a constant.
#[derive(Clone, Copy, Debug, PartialEq, Eq)]
pub enum Instruction {
    Place,
    And,
    Or,
    Not,
    True,
    False,
}

// A place: left − right ≤ most.
#[derive(Clone, Copy)]
pub struct Place {
    pub left: u8,
    pub right: u8,
    pub most: i64,
}

// What stands where there is no place.
pub const NOWHERE: Place = Place {
    left: 0,
    right: 0,
    most: 0,
};

// The first `length` instructions are the program; the first `decisions` places are those of its place instructions, in order. Arrays and
// counts, since nothing here takes memory from a heap.
#[derive(Clone, Copy)]
pub struct Program {
    pub instructions: [Instruction; INSTRUCTIONS],
    pub length: usize,
    pub places: [Place; PLACES],
    pub decisions: usize,
}

// A vertex plus an offset, which is at most a sum of two i32, so that weights are exact in i64.
#[derive(Clone, Copy)]
pub struct Term {
    pub vertex: u8,
    pub offset: i64,
    pub ghost low: { neg_ℤ (pos 4294967296) ≤ℤ offset },
    pub ghost high: { offset ≤ℤ pos 4294967296 },
}

// What a vertex ranges over.
#[derive(Clone, Copy)]
pub struct Range {
    pub lo: i64,
    pub hi: i64,
}

// 0 alone: what vertex 0 ranges over, and what is taken where a vertex has no range.
pub const ONLY_ZERO: Range = Range { lo: 0, hi: 0 };

// The vertex numbers below `count`: what each ranges over, where the formula has it. Vertex 0 ranges over 0 alone.
// An array and a count, as above.
#[derive(Clone, Copy)]
pub struct Vertices {
    pub count: usize,
    pub ranges: [Option<Range>; VERTICES],
}

// A compiled formula; `pairs`: it speaks of two rows.
#[derive(Clone, Copy)]
pub struct Formula {
    pub program: Program,
    pub pairs: bool,
    pub vertices: Vertices,
}
