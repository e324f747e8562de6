#![tactic(auto)]

pub mod condition;
pub mod token;
