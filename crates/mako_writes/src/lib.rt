//! Which words each seat may write: what a step of one seat leaves to all others.
#![tactic(auto)]

pub mod laws;
