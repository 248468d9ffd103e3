//! An attempt of each call, as a machine.
#![tactic(auto)]

mod allocating;
mod asking;
mod call_machine;
mod call_stage;
mod caller;
mod entering;
mod fitting;
mod getting;
pub mod laws;
mod leaving;
mod moving;
mod object;
mod putting;
mod rooting;
mod standing;
mod words;

pub use allocating::AllocStage;
pub use asking::AskStage;
pub use call_machine::{CallMachine, Keep, StepTaken};
pub use call_stage::CallStage;
pub use caller::Caller;
pub use entering::EnterStage;
pub use getting::GetStage;
pub use leaving::LeaveStage;
pub use moving::MoveStage;
pub use object::{Access, Errand, Get, Located, Put};
pub use putting::PutStage;
pub use rooting::RootStage;

#[cfg(test)]
mod tests;
