//! The plain heap, in which nothing moves or is freed: its calls, their replies and their histories.
#![tactic(auto)]

mod attempt;
mod call;
mod cycles;
mod event;
pub mod examples;
mod front;
mod immortal;
mod journal;
pub mod laws;
mod objects;
mod outcome;
mod point;
mod reply;
mod roots;
mod search;

pub use attempt::{Attempt, Pause};
pub use call::Call;
pub use cycles::Cycles;
pub use event::Event;
pub use front::Front;
pub use immortal::Immortal;
pub use journal::Journal;
pub use outcome::Outcome;
pub use point::Point;
pub use reply::Reply;
pub use search::reach;

#[cfg(test)]
mod tests;
