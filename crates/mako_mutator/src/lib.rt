//! What mutators do: the driver of a whole program, which makes its calls one after the other.
#![tactic(auto)]

mod driver;
mod place;
mod progress;
mod telling;

pub use driver::Driver;
pub use mako_call::{CallMachine, Caller, Keep};
pub use place::Place;
pub use progress::{Progress, Task};
pub use telling::tell;

#[cfg(test)]
mod tests;
