//! The machine of a seat: a mutator's program, a server, or the collector.
#![tactic(auto)]

mod seat;

pub use seat::Seat;

#[cfg(test)]
mod tests;
