// What the definitions in specs/ and the code share: which of two lent images is handed back. The meaning of
// filing stands in specs/ and proofs/; crate `filing` has the code.
#![tactic(auto)]

// The earlier of two images: the first, the second, or, where either is refused, neither.
#[derive(Clone, Copy)]
pub enum Earlier {
    First,
    Second,
    Neither,
}
