//! The reader of scripts: what their lines, words and numbers spell.
#![tactic(auto)]

mod arguments;
pub mod lines;
pub mod names;
pub mod numbers;
mod reading;
pub mod refusal;
pub mod section;
pub mod settings;

pub use reading::read_script;
