//! Scripts: `parse` reads their text, and tells the first fault of a text that is none.
#![tactic(auto)]

mod check;
mod fault;
pub mod laws;
mod reading;

pub use check::{Fault, first_fault};
pub use fault::{Kind, ScriptFault, fault_line};
pub use mako_text::{Line, Program, Script, print, write_output, write_text};
pub use reading::parse;

#[cfg(test)]
mod tests;
