//! Gates: machines that arrive at them, leave, shut and reopen them.
#![tactic(auto)]

mod arrive;
pub mod laws;
mod leave;
mod reopen;
mod shutter;

pub use arrive::{Arrive, ArriveStage, Arrived};
pub use leave::{Leave, LeaveStage};
pub use reopen::{Reopen, ReopenStage};
pub use shutter::{ShutStage, Shutter};

#[cfg(test)]
mod tests;
