//! The geometry of the heap: its numbers, and the index of each word.
#![tactic(auto)]

mod areas;
mod fault;
mod indexes;
pub mod laws;
mod numbers;
mod shape;

pub use fault::ShapeFault;
pub use numbers::{Numbers, RANGES};
pub use shape::Shape;

#[cfg(test)]
mod tests;
