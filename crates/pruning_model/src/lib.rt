// The meaning of pruning stands in specs/ and proofs/; crate `pruning` has the code.
#![tactic(auto)]
