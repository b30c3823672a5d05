// The steps of a replay, on plain numbers: what is judged before the trace, a record that is judged, and
// one that is applied. Crate `replay` hands them the records.
#![tactic(auto)]

pub mod judging;
pub mod preparing;
pub mod steps;
