// The checker's passes that judge a label, a register or a state by its record: refusals 2, 3, 4,
// 19 at a state, and 9.
#![tactic(auto)]

pub mod bounds;
pub mod lattice;
pub mod parameters;
pub mod registers;
pub mod states;
