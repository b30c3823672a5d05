// The steps of pruning: which states are reached, which nodes stay, the new numbers of both, and their
// records under new numbers.
#![tactic(auto)]

pub mod numbering;
pub mod reaching;
pub mod staying;
pub mod writing;
