#![tactic(auto)]

pub mod columns;
pub mod widths;
