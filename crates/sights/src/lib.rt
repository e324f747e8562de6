// What stands for a column: a term, on either row and after the change.
#![tactic(auto)]

pub mod terms;
pub mod types;
