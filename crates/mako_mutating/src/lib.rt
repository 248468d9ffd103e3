//! A mutator's calls and the groups of the collector's invariant: what each group reads of a mutator, and that the
//! steps of its calls keep them all.
#![tactic(auto)]

pub mod laws;
