//! A text that is written line by line.

ghost use Rattle.std.specs.Prelude.{◌≡◌, ◌≤◌, ◌<◌, ◌++◌, ◌==◌, length, position, OnErr, OnOk, IfErr};
ghost use Rattle.std.specs.Io.KnownBytes.{Appends};
ghost use Rattle.mako_io.specs.Causes.{Rose};
ghost use Rattle.mako_text.specs.Outputs.{WentOut};

use crate::writer::OutputWriter;
use mako_io::{Sink, WriteFault};

/// The place of the first such byte.
pub fn place_of(byte: u8, text: &[u8]) -> Option<usize>
    ensures { result ≡ position (λ b. b == byte) text.now }
{
    text.iter().position(|found| *found == byte)
}

/// The first line with its line feed, and the text behind it. What no line feed ends is a line too.
pub(crate) fn first_line(text: &[u8]) -> (&[u8], &[u8])
    requires { 0 < length text.now }
    ensures parts { result.0.now ++ result.1.now ≡ text.now }
    ensures shorter { length result.1.now < length text.now }
{
    match place_of(b'\n', text) {
        Some(end) => (&text[..end + 1], &text[end + 1..]),
        None => (text, &[]),
    }
}

/// Writes a text, each line of it by one `write_all`. A fault counts the bytes of the whole text that went out, up to
/// the greatest number. It takes no memory.
pub fn write_text<K: Sink>(sink: &mut K, text: &[u8]) -> Result<(), WriteFault>
    ensures written { OnOk result (Appends (K.taken sink.old) (K.taken sink.new) text.now) }
    ensures went { IfErr result (λ fault. WentOut text.now (K.taken sink.old) (K.taken sink.new) 0 fault.went) }
    ensures fault { OnErr result (Rose (K.faults sink.old) (K.faults sink.new)) }
    ensures counted { K.faults sink.old ≤ K.faults sink.new }
{
    OutputWriter::new(sink).text(text)
}
