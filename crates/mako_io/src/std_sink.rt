//! Standard output as a sink.

ghost use Rattle.std.specs.Prelude.{◌≡◌, ◌<◌, ◌≤◌, length, take, IfOk, OnErr};
ghost use Rattle.std.specs.Io.KnownBytes.{Appends, Keeps};
ghost use Rattle.mako_io.specs.Causes.{raised};

use crate::sink::Sink;
use crate::source::Failed;
use std::io;
use std::io::{Print, Printer, Write};

/// Standard output, unbuffered, and the number of its errors so far. Contracts see the bytes taken where
/// the writer tells them, and standard output does not.
#[derive(Drop)]
pub struct StdSink<W> {
    writer: W,
    faults: u64,
}

impl<'a, P: Print> StdSink<Printer<'a, P>> {
    /// A sink over the runtime's standard output.
    pub fn new(rt: &'a P) -> StdSink<Printer<'a, P>>
        ensures { ⟦<StdSink<Printer<'a, P>> as Sink>⟧.faults result ≡ 0 }
    {
        StdSink {
            writer: io::writer(rt),
            faults: 0,
        }
    }
}

impl<W: Write> Sink for StdSink<W> {
    ghost taken = { λ s. W.contents s.writer };

    ghost faults = { λ s. s.faults };

    /// A write that takes something, or nothing of an empty piece, leaves the count of faults; every other raises it.
    fn write(&mut self, bytes: &[u8]) -> Result<usize, Failed>
        ensures bound { IfOk result (λ count. count ≤ length bytes.now) }
        ensures grown { IfOk result (λ count. Appends (⟦<StdSink<W> as Sink>⟧.taken self.old)
            (⟦<StdSink<W> as Sink>⟧.taken self.new) (take count bytes.now)) }
        ensures sound { IfOk result (λ count. 0 < count → ⟦<StdSink<W> as Sink>⟧.faults self.new
            ≡ ⟦<StdSink<W> as Sink>⟧.faults self.old) }
        ensures empty { IfOk result (λ count. length bytes.now ≡ 0 → ⟦<StdSink<W> as Sink>⟧.faults self.new
            ≡ ⟦<StdSink<W> as Sink>⟧.faults self.old) }
        ensures stuck { result ≡ Ok 0 → 0 < length bytes.now → ⟦<StdSink<W> as Sink>⟧.faults self.new ≡ raised
            (⟦<StdSink<W> as Sink>⟧.faults self.old) }
        ensures kept { OnErr result (Keeps (⟦<StdSink<W> as Sink>⟧.taken self.old)
            (⟦<StdSink<W> as Sink>⟧.taken self.new)) }
        ensures failed { OnErr result (⟦<StdSink<W> as Sink>⟧.faults self.new ≡ raised
            (⟦<StdSink<W> as Sink>⟧.faults self.old)) }
    {
        match self.writer.write(bytes) {
            Ok(count) => {
                if count == 0 && !bytes.is_empty() {
                    self.faults = self.faults.saturating_add(1);
                }
                Ok(count)
            }
            Err(_) => {
                self.faults = self.faults.saturating_add(1);
                Err(Failed)
            }
        }
    }
}
