// Nothing runs here: the crate holds definitions, in specs/, and laws of them, in proofs/.
#![tactic(auto)]
