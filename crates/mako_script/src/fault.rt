//! Why bytes are no script.

ghost use Rattle.std.specs.Prelude.{◌≡◌, ◌≤◌, length};
ghost use Rattle.mako_script.specs.FaultTexts.{fault_text, kind_text};
ghost use Rattle.mako_script.specs.Faults.{rank};

use mako_text::line::{Line, add, add_number};
use std::fmt;
use thiserror::Error;

/// What is wrong with a line. Of several faults in one line the first in this order is told.
#[derive(Clone, Copy, Debug, PartialEq, Eq)]
pub enum Kind {
    /// A byte is not in 32 to 126.
    NotAscii,
    /// A line without its line feed, fewer than eleven settings, or a section without its end.
    Unclosed,
    /// One of the first eleven lines is not its key and one more word.
    Header,
    /// A word is not one that may stand there, or the number of words is wrong.
    Word,
    /// A number is not spelled as one.
    Number,
    /// A number is out of its range.
    Range,
    /// The tablets of all servers have too many entries together.
    Entries,
    /// A name is read that is not defined on an earlier line.
    Undefined,
    /// The section has more names than roots.
    Names,
    /// Too many sections or commands.
    Many,
    /// There is no section.
    NoMutator,
    /// All areas together have too many words.
    Words,
    /// The input is too long to be read; the line is 0.
    Long,
}

impl Kind {
    /// The place of the kind in the order in which faults of one line are told.
    pub fn rank(self) -> u8
        ensures { result ≡ rank self }
    {
        self as u8
    }

    /// The name that is printed.
    pub fn name(self) -> &'static str
        ensures name { result.now ≡ kind_text self }
        ensures short { length result.now ≤ 9 }
    {
        match self {
            Kind::Header => "header",
            Kind::NotAscii => "ascii",
            Kind::Word => "word",
            Kind::Number => "number",
            Kind::Range => "range",
            Kind::Names => "names",
            Kind::Undefined => "undefined",
            Kind::NoMutator => "mutators",
            Kind::Unclosed => "unclosed",
            Kind::Many => "many",
            Kind::Entries => "entries",
            Kind::Words => "words",
            Kind::Long => "long",
        }
    }
}

impl fmt::Display for Kind {
    fn fmt<W: fmt::Write>(&self, f: &mut fmt::Formatter<W>) -> fmt::Result {
        f.write_str(self.name())
    }
}

/// Why `parse` gave no script.
#[derive(Clone, Copy, Debug, PartialEq, Eq, Error)]
pub enum ScriptFault {
    /// The bytes are no script; lines are numbered from 1.
    #[error("script {kind} {line}")]
    Bad { kind: Kind, line: u32 },
    /// There was not memory enough.
    #[error("memory")]
    Memory,
}

/// The line that tells a fault.
pub fn fault_line(kind: Kind, line: u32) -> Line
    ensures { result.items ≡ fault_text kind line }
{
    let mut text = Line::new();
    add(&mut text, b"script ");
    add(&mut text, kind.name().as_bytes());
    add(&mut text, b" ");
    add_number(&mut text, u64::from(line));
    add(&mut text, b"\n");
    text
}
