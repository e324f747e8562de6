// The rows of a no sheet.
#![tactic(auto)]

pub mod rows;
