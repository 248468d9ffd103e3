//! A server as a machine: its turns on the phase word, its tracing and its evacuations.
#![tactic(auto)]

mod kept;
mod server;
mod stage;

pub use server::Server;
pub use stage::ServerStage;

#[cfg(test)]
mod tests;
