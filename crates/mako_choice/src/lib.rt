//! The choice of the tablets that are evacuated.
#![tactic(auto)]

mod chooser;
pub mod laws;
#[cfg(test)]
mod tests;

pub use chooser::{Candidate, Chooser, Used};
