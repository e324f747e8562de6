// The trees of a yes sheet: a tree from a node on, and that of a compiled formula.
#![tactic(auto)]

pub mod formulas;
mod trees;
