//! The steps of a mutator that makes an object, asks for a cycle or waits for one: they keep all groups of the
//! collector's invariant, in every phase.
#![tactic(auto)]

pub mod laws;
