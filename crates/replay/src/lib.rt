// The replay of a port trace on slices, with answers as enums: all that reads the lent slice of record
// structs. Crate `replay_steps` has the steps that do the work, on plain numbers.
#![tactic(auto)]

pub mod records;
