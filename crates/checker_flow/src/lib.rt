// The checker's pass over bodies for the flow rules, by recursion over parts, with the masks of label
// bytes that it goes by: refusals 10 to 12.
#![tactic(auto)]

pub mod flow;
pub mod masks;
