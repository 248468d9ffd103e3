//! Scripts as values: their geometry and programs, their one text, and the printed output of a run.
#![tactic(auto)]

pub mod command;
pub mod keys;
pub mod line;
mod lines;
mod output;
mod printing;
mod program;
mod script;
pub mod text;
mod writer;

pub use line::Line;
pub use output::write_output;
pub use printing::print;
pub use program::Program;
pub use script::Script;
pub use text::write_text;
