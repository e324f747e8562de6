// The pieces that formulas are written from: conditions, range tests, and differences of rows.
#![tactic(auto)]

pub mod conditions;
pub mod differences;
pub mod ranges;
