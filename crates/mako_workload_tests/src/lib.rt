//! Tests of the commands that make workloads and replay them. They stand here so that the crates below are proved once,
//! and not once more with their tests.
#![tactic(auto)]

#[cfg(test)]
mod workloads;
