// The first formula that is open, and the verdict that it makes. The tableau tells, so no tree is walked.
#![tactic(auto)]

pub mod openings;
pub mod verdict;
