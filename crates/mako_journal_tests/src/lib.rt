//! Tests of the journals that runs of the core leave. They stand here so that the crates below are proved once, and not
//! once more with their tests.
#![tactic(auto)]

#[cfg(test)]
mod journals;
