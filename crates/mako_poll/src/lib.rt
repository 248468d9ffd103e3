//! The poll for completion, and why a poll that is told has found the heap quiet.
#![tactic(auto)]

pub mod laws;
mod poller;
#[cfg(test)]
mod tests;

pub use poller::{PollStage, Polled, Poller};
