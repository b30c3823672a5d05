// The checker's pass over bodies for the shape of commands, by recursion over parts: refusal 8. And
// places of faults as plain numbers, in which the other passes over bodies answer too.
#![tactic(auto)]

pub mod places;
pub mod shape;
