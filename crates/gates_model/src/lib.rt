// The meaning of gate tables stands in specs/ and proofs/; crate `gates` has the code.
#![tactic(auto)]
