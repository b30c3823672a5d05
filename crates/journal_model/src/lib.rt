// The meaning of journals stands in specs/ and proofs/; crate `journal` has the code.
#![tactic(auto)]
