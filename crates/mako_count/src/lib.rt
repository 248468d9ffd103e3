//! The end of work that spreads by messages, told by counting twice.
#![tactic(auto)]

mod count;
pub mod laws;
mod opening;
mod passes;
mod poller;
mod rule;
mod run;
mod setup;
mod steps;
mod views;
mod worker;

pub use count::{Count, Counted};
pub use poller::{CountPoller, Counting};
pub use run::count_pieces;
pub use worker::{Sent, Taken, Worker};
