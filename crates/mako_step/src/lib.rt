//! Atomic steps on the words of the heap, and machines that are made of them.
#![tactic(auto)]

mod act;
mod flat_words;
pub mod laws;
mod machine;
mod step;
mod stepping;
mod words;

pub use act::{Act, Op};
pub use flat_words::FlatWords;
pub use machine::Machine;
pub use step::Step;
pub use stepping::{Stepped, make_step};
pub use words::Words;

#[cfg(test)]
mod tests;
