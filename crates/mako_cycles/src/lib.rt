//! What the trails of a collector show, cycle after cycle.
#![tactic(auto)]

pub mod laws;
#[cfg(test)]
mod tests;
