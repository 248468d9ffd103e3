//! What a command comes to, before its text is written.

use mako_replay::Replayed;
use mako_script::{Kind, Script};

/// What a command comes to, before its text is written.
#[derive(Drop)]
pub enum Settled {
    /// The script was replayed, to its end or as far as its steps went.
    Replayed(Script, Replayed),
    /// A workload was generated, with this text.
    Generated(Vec<u8>),
    /// So many pieces of a ring of workers were handled.
    Counted(u64),
    /// The workload of a number was replayed, to its end or as far as the steps went.
    Loaded(u64, Replayed),
    /// The words of the command line are no command.
    Usage,
    /// The bytes are no script, or too many.
    NoScript { kind: Kind, line: u32 },
    /// A read failed.
    ReadFault,
    /// There was not memory enough before the first step.
    Memory,
}

impl Settled {
    pub const DONE: u8 = 0;

    pub const USAGE: u8 = 1;

    pub const NO_SCRIPT: u8 = 2;

    pub const READ_FAULT: u8 = 3;

    pub const WRITE_FAULT: u8 = 4;

    pub const MEMORY: u8 = 5;

    pub const UNFINISHED: u8 = 6;
}
