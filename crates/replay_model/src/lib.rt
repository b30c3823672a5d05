// What the definitions in specs/ and the code share: a record of a port trace. The meaning of a replay
// stands in specs/ and proofs/; crate `replay` has the code.
#![tactic(auto)]

// A record of a trace as the host lends it, caisson_record in the header: before the cycle of this number,
// counted from 0, a port takes a value.
#[repr(C)]
#[derive(Clone, Copy)]
pub struct TraceRecord {
    pub cycle: u32,
    pub register: u32,
    pub value: u32,
}
