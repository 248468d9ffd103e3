//! The commands that the words of the command line say.
#![tactic(auto)]

mod line;

pub use line::{CommandLine, command_line};
