//! The groups of the collector's invariant side by side: names, tracing, layout, polls and phases of one state, what
//! each gives to the others, and steps that keep them all.
#![tactic(auto)]

pub mod laws;
