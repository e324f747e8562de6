#![tactic(auto)]

pub mod asked;
pub mod types;
