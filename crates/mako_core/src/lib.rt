//! The core: the words of the heap, the machine of each seat and the journal, and one atomic step of one seat.
#![tactic(auto)]

mod core_state;
mod opening_seats;
mod opening_words;
mod replies;
mod turn;

pub use core_state::Core;
pub use turn::Turn;

#[cfg(test)]
mod tests;
