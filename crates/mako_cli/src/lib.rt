//! The commands of the program, from the words of the command line to the bytes that are written.
#![tactic(auto)]

mod commands;
mod count;
mod ended;
mod load;
mod settled;

pub use commands::{gen_top, replay_top, top};
pub use count::count_top;
pub use ended::Ended;
pub use load::load_top;
pub use mako_command::CommandLine;
pub use settled::Settled;
