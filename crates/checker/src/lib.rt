// The check of a sheet for a question that was read.
#![tactic(auto)]

pub mod header;
