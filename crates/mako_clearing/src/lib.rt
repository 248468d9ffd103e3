//! A server's evacuation and the collector's hearing of it keep all groups of the invariant.
#![tactic(auto)]

pub mod laws;
