// Designs under new numbers: their meaning stands in specs/, what holds of them in proofs/.
#![tactic(auto)]
