//! Tests of the commands that replay scripts. They stand here so that the crates below are proved once, and not once more
//! with their tests.
#![tactic(auto)]

#[cfg(test)]
mod commands;
