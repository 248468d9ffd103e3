//! Byte sources and sinks that count their faults, and reading and writing a whole stream.
#![tactic(auto)]

mod calls;
mod mem_sink;
mod mem_source;
mod memory;
mod reading;
mod rest;
mod sink;
mod sound_sink;
mod sound_source;
mod source;
mod std_sink;
mod std_source;
mod store;
mod writing;

pub use mem_sink::MemSink;
pub use mem_source::MemSource;
pub use memory::Memory;
pub use reading::{ReadRefusal, read_all};
pub use sink::Sink;
pub use sound_sink::SoundSink;
pub use sound_source::SoundSource;
pub use source::{Failed, Source};
pub use std_sink::StdSink;
pub use std_source::StdSource;
pub use writing::{WriteFault, write_all};

#[cfg(test)]
mod tests;
