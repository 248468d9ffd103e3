//! A judge of fronts: whether a history and its finished cycles answer a script, and if not, why not.
#![tactic(auto)]

mod deaths;
mod faults;
mod freed;
mod judging;
mod names;
mod points;
mod programs;
mod replay;
mod setup;
mod starved;
mod trial;
mod verdict;

pub use judging::judge;
pub use setup::Setup;
pub use verdict::{Clause, Fault, Verdict};
