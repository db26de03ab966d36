// The lines of a file.

#![tactic(auto)]

pub mod span; // span.rt: where the lines of a file begin
pub mod skip; // skip.rt: octets in which no agent or rule line begins
