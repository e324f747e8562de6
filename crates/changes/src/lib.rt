#![tactic(auto)]

pub mod change;
pub mod modes;
pub mod rows;
pub mod table;
