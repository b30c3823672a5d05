// The lines that the cycle lister prints, each put to a lent buffer.
#![tactic(auto)]

pub mod decimal;
pub mod fields;
pub mod lines;
pub mod starts;
pub mod texts;
