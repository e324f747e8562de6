// Whether a formula is true at some values, by the formula's own structure: no tree of it is walked.
#![tactic(auto)]

pub mod openings;
mod search;
