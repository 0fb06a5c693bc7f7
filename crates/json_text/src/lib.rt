// The record grammar: definitions and theorems, in specs/, and the limits of a record as numbers.
#![tactic(auto)]

// The levels that a record may nest.
pub const MAX_DEPTH: usize = 512;

// The bytes that a record may have.
pub const MAX_BYTES: usize = 16777216;
