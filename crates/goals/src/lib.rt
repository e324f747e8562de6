// Parts of a formula that are wanted true or false, under facts: what is taken apart with no choice.
#![tactic(auto)]

pub mod demands;
pub mod entering;
pub mod states;
pub mod types;
