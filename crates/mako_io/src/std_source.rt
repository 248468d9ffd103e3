//! Standard input as a source.

ghost use Rattle.std.specs.Prelude.{◌≡◌, ◌<◌, ◌≤◌, length, take, IfOk, OnErr, OnOk};
ghost use Rattle.std.specs.Io.KnownBytes.{Consumes, IsAtEnd, Keeps};
ghost use Rattle.mako_io.specs.Causes.{raised};

use crate::source::{Failed, Source};
use std::io::{Input, Read};

/// Standard input, and the number of its errors so far. Contracts see the bytes still to come where the
/// reader tells them, and standard input does not.
#[derive(Drop)]
pub struct StdSource<R> {
    reader: R,
    faults: u64,
}

impl<R: Read> StdSource<R> {
    /// A source over the runtime's standard input.
    pub fn new<I: Input<Reader = R>>(rt: &I) -> StdSource<R>
        ensures { ⟦<StdSource<R> as Source>⟧.faults result ≡ 0 }
    {
        StdSource {
            reader: rt.reader(),
            faults: 0,
        }
    }
}

impl<R: Read> Source for StdSource<R> {
    ghost left = { λ s. R.remaining s.reader };

    ghost faults = { λ s. s.faults };

    /// A read that succeeds leaves the count of faults, and one that fails raises it.
    fn read(&mut self, buf: &mut [u8]) -> Result<usize, Failed>
        ensures bound { IfOk result (λ count. count ≤ length buf.old) }
        ensures given { IfOk result (λ count. Consumes (⟦<StdSource<R> as Source>⟧.left self.old)
            (⟦<StdSource<R> as Source>⟧.left self.new) (take count buf.new)) }
        ensures ended { result ≡ Ok 0 → 0 < length buf.old → IsAtEnd (⟦<StdSource<R> as Source>⟧.left self.old) }
        ensures kept { OnErr result (Keeps (⟦<StdSource<R> as Source>⟧.left self.old)
            (⟦<StdSource<R> as Source>⟧.left self.new)) }
        ensures sound { OnOk result (⟦<StdSource<R> as Source>⟧.faults self.new
            ≡ ⟦<StdSource<R> as Source>⟧.faults self.old) }
        ensures failed { OnErr result (⟦<StdSource<R> as Source>⟧.faults self.new ≡ raised
            (⟦<StdSource<R> as Source>⟧.faults self.old)) }
    {
        match self.reader.read(buf) {
            Ok(count) => Ok(count),
            Err(_) => {
                self.faults = self.faults.saturating_add(1);
                Err(Failed)
            }
        }
    }
}
