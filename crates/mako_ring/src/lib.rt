//! Rings of slots, the machines that put into them and take out of them, and what they are for:
//! the flags of servers and the polls for completion.
#![tactic(auto)]

pub mod laws;
mod put;
mod ring;
mod take;
#[cfg(test)]
mod tests;
mod tracing;
mod window;

pub use put::{Put, PutStage, Putting};
pub use ring::{Ring, next_place};
pub use take::{Take, TakeStage, Taking};
pub use tracing::{
    MarkStage, ReceiveStage, RestStage, Scan, ScanStage, SendStage, Source, TraceStage,
};
pub use window::Window;
