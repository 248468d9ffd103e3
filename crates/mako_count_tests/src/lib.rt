//! Tests of counts. They stand here so that the crates below are proved once, and not once more with their tests.
#![tactic(auto)]

#[cfg(test)]
mod counts;
#[cfg(test)]
mod small_counts;
