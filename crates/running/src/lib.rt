// Lent areas of the right lengths, once the image is accepted: whether they are sound, and a run on sound ones.
#![tactic(auto)]

pub mod contents;
pub mod runs;
pub mod soundness;
