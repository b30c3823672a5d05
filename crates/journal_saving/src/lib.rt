// A journal in bytes: parts of areas taken, its count and its room, and journalled cycles.
#![tactic(auto)]

pub mod bytes;
pub mod room;
pub mod saving;
