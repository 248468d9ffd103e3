//! Tests of words that are no command. They stand here so that the crates below are proved once, and not once more with
//! their tests.
#![tactic(auto)]

#[cfg(test)]
mod usage;
