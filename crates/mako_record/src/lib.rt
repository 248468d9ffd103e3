//! Records: the copy of one into its tablet's home, and whether one lies there.
#![tactic(auto)]

mod copier;
mod region;

pub use copier::{Copier, CopyStage};
pub use region::is_in_region;

#[cfg(test)]
mod tests;
