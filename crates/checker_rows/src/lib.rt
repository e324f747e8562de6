// The rows of a no sheet: which values may stand in their fields, and whether the formula is true at them.
#![tactic(auto)]

mod allowances;
pub mod fields;
pub mod formulas;
pub mod layout;
mod values;
