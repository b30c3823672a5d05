// The image of a design: its meaning stands in specs/, what holds of it in proofs/. The code writes
// directory and records into an area, one part at a time.
#![tactic(auto)]

pub mod parts;
pub mod tables;
pub mod writers;
