//! Where bytes come from.

ghost use Rattle.std.specs.Prelude.{◌≡◌, ℕ, ◌<◌, ◌≤◌, List, length, take, IfOk, OnErr};
ghost use Rattle.std.specs.declared.option.Option.{Option};
ghost use Rattle.std.specs.Io.KnownBytes.{Consumes, IsAtEnd, Keeps};
ghost use Rattle.mako_io.specs.Causes.{Rose};

/// A read or a write failed, and the count of faults of the stream rose.
#[derive(Clone, Copy, Debug, PartialEq, Eq)]
pub struct Failed;

/// A stream of bytes to read. Contracts see the bytes still to come, where the source tells them, and
/// the number of faults so far.
pub trait Source {
    // The bytes still to come, or `None` where the source does not tell them.
    ghost left: { Self → Option (List ℕ) };

    // How often a read failed so far.
    ghost faults: { Self → ℕ };

    /// Puts the next bytes at the front of the buffer and answers how many they are. 0 for a buffer that
    /// is not empty means the end of the stream. What stands behind them in the buffer is left open.
    fn read(&mut self, buf: &mut [u8]) -> Result<usize, Failed>
        ensures bound { IfOk result (λ count. count ≤ length buf.old) }
        ensures given { IfOk result (λ count. Consumes (left self.old) (left self.new) (take count buf.new)) }
        ensures ended { result ≡ Ok 0 → 0 < length buf.old → IsAtEnd (left self.old) }
        ensures kept { OnErr result (Keeps (left self.old) (left self.new)) }
        ensures counted { faults self.old ≤ faults self.new }
        ensures failed { OnErr result (Rose (faults self.old) (faults self.new)) };
}
