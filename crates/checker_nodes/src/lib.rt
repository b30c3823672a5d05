// The checker's passes over nodes: what a node of each kind holds, refusal 5; that every node is used
// exactly once, refusal 6; that none is too deep, refusal 7; and that no assignment and no argument
// names a port, refusal 16.
#![tactic(auto)]

pub mod depths;
pub mod kinds;
pub mod passes;
pub mod ports;
pub mod uses;
