//! A server's tracing: the machine that marks what is reachable, one word at a time.
#![tactic(auto)]

mod holdings;
mod marking;
mod receiving;
mod resting;
mod scanning;
mod sending;
#[cfg(test)]
mod tests;
mod tracer;
mod words;

pub use tracer::Tracer;
