// What the programs print of the rows in a no sheet, said once. Verdicts, what is asked, and refusals print themselves.
#![tactic(auto)]

pub mod numbers;
