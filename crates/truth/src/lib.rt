// What the places decided so far say of a formula: Kleene's three values (FORMAT 7.1).
#![tactic(auto)]

pub mod decisions;
mod stack;
mod steps;
pub mod truths;
