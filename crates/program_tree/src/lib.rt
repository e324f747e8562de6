// A formula's program as a tree: a node for each instruction.
#![tactic(auto)]

pub mod as_tree;
pub mod tree;
pub mod types;
