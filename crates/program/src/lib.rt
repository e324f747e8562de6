#![tactic(auto)]

pub mod instructions;
pub mod types;
