//! Evacuation by a server: its tablets that leave a region are copied home, and its dead entries are freed.
#![tactic(auto)]

mod evacuator;
pub mod examples;
mod freeing;
pub mod laws;
mod owner;
mod stage;
mod tablet;
mod words;

pub use evacuator::Evacuator;
pub use freeing::FreeStage;
pub use owner::Owner;
pub use stage::EvacStage;
pub use tablet::TabletStage;

#[cfg(test)]
mod tests;
