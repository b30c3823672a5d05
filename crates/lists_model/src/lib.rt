// Lists of all calls that change areas. Their meaning is specs/, and proofs/ has what is promised of them.
#![tactic(auto)]
