//! The steps of the collector, and that they keep all groups of the invariant.
#![tactic(auto)]

pub mod laws;
