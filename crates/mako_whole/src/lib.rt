//! All seats over runs of a core: what stands at the start, what each step of each seat keeps, and what that tells.
#![tactic(auto)]

pub mod laws;
