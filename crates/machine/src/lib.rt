// The machine along its states: the targets, the bindings, the tables of a run, and cycles.
#![tactic(auto)]

pub mod bindings;
pub mod cycle;
pub mod tables;
pub mod targets;
