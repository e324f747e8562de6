#![tactic(auto)]

pub mod trees;
pub mod types;
