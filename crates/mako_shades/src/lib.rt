//! The tracing of a cycle: which names are shaded, which fields are still to be read, the steps that keep this, and
//! what it comes to when nothing is left to trace.
#![tactic(auto)]

pub mod examples;
pub mod laws;
