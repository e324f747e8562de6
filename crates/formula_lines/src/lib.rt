// The table of formulas (FORMAT 5.3): the words of its lines, and the line of each formula.
#![tactic(auto)]

pub mod lines;
pub mod types;
