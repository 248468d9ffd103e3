//! The order of the phases: what ties the phase, the collector and the servers to one another, which steps keep it, and
//! what follows; and live counts, which servers keep while they trace.
#![tactic(auto)]

pub mod examples;
pub mod laws;
