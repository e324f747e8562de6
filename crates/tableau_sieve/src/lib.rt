// The goals that wait, sifted by what is known.
#![tactic(auto)]

pub mod sieve;
pub mod types;
