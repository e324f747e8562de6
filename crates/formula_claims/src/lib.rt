// A line of the table as a program: its claims, written one after another.
#![tactic(auto)]

pub mod claims;
