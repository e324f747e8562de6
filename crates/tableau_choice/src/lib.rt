// The goal that is split, and the order of its operands.
#![tactic(auto)]

pub mod choice;
pub mod types;
