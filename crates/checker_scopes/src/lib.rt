// The checker's pass over bodies for the scope of parameters and the arguments of gotos, by recursion
// over parts: refusal 19 at nodes. And the one look at each record that spares a plain design refusals
// 16 and 19.
#![tactic(auto)]

pub mod plain;
pub mod scope;
