// The declared types.
use grid::Grid;
use limits::INSTRUCTIONS;

// A part of the formula, by its instruction, that is wanted true or false: a truth that is asked for, no choice of steps.
#[derive(Clone, Copy)]
pub struct Goal {
    pub at: u16,
    pub want: bool,
}

// What stands where no goal waits.
pub const NO_GOAL: Goal = Goal { at: 0, want: false };

// Facts, and goals that wait: the first `count` of an array, since nothing here takes memory from a heap.
#[derive(Clone, Copy)]
pub struct State {
    pub near: Grid,
    pub goals: [Goal; INSTRUCTIONS],
    pub count: usize,
}

// What is wanted contradicts the facts.
#[derive(Clone, Copy, Debug, PartialEq, Eq)]
pub struct Contradiction;
