// The steps of filing: the nodes of an image in the order of its filing form, their new numbers, and each byte
// of the form.
#![tactic(auto)]

pub mod bytes;
pub mod fields;
pub mod numbering;
pub mod ordering;
pub mod tables;
