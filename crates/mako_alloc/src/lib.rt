//! How an object is made: the machine of `new`, from the gate of the first tablet to the store of the entry.
#![tactic(auto)]

pub mod examples;
mod found;
mod job;
pub mod laws;
mod machine;
mod progress;
#[cfg(test)]
mod tests;

pub use found::Found;
pub use job::Job;
pub use machine::NewMachine;
pub use progress::{NewRecord, NewStage, Part, Progress};
