//! Generated workloads: a script of any size, from a number.
#![tactic(auto)]

mod draws;
mod names;
mod section;
mod workload;

pub use workload::make;

#[cfg(test)]
mod tests;
