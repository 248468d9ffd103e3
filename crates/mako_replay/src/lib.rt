//! Replays: the steps of a core in the order of a schedule.
#![tactic(auto)]

mod draws;
mod order;
mod replaying;
mod running;
mod schedule;

pub use order::Order;
pub use replaying::{Replayed, replay};

#[cfg(test)]
mod tests;
