// What a question's formulas are read under: its list, and its change.
#![tactic(auto)]

pub mod contexts;
