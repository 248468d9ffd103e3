//! What a server's turn and its tracing keep: all groups of the collector's invariant.
#![tactic(auto)]

pub mod laws;
