// The machine on one body: the values of expressions and the effects of commands.
#![tactic(auto)]

pub mod evaluate;
pub mod execute;
pub mod signed;
