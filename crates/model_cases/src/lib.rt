// The proved cases of crate `model`, which stand in proofs/: apart from the definitions and theorems, so that an edit
// of these does not check them again.
#![tactic(auto)]
