// The formulas of a question as programs over vertices, by one table (FORMAT 5.3): page_formulas' specs/Formulas says what they are.
#![tactic(auto)]

pub mod formulas;
