//! The packed words of the heap, and the names and values that they stand for.
#![tactic(auto)]

mod entry_word;
mod flag_word;
mod gate_word;
pub mod laws;
mod live_word;
mod memory;
mod name;
mod notice_word;
mod phase_word;
#[cfg(test)]
mod tests;
mod value;

pub use entry_word::EntryWord;
pub use flag_word::FlagWord;
pub use gate_word::GateWord;
pub use live_word::LiveWord;
pub use memory::Memory;
pub use name::Name;
pub use notice_word::NoticeWord;
pub use phase_word::PhaseWord;
pub use value::Value;
