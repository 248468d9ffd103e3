//! Where bytes go.

ghost use Rattle.std.specs.Prelude.{◌≡◌, ℕ, ◌<◌, ◌≤◌, List, length, take, IfOk, OnErr};
ghost use Rattle.std.specs.declared.option.Option.{Option};
ghost use Rattle.std.specs.Io.KnownBytes.{Appends, Keeps};
ghost use Rattle.mako_io.specs.Causes.{Rose};

use crate::source::Failed;

/// A stream of bytes to write. Contracts see the bytes taken so far, where the sink tells them, and
/// the number of faults so far.
pub trait Sink {
    // The bytes taken so far, or `None` where the sink does not tell them.
    ghost taken: { Self → Option (List ℕ) };

    // How often a write failed so far.
    ghost faults: { Self → ℕ };

    /// Takes bytes from the front of the piece and answers how many. A sink that takes nothing of a piece
    /// that is not empty has failed, also where it answers `Ok(0)`.
    fn write(&mut self, bytes: &[u8]) -> Result<usize, Failed>
        ensures bound { IfOk result (λ count. count ≤ length bytes.now) }
        ensures grown { IfOk result (λ count. Appends (taken self.old) (taken self.new) (take count bytes.now)) }
        ensures stuck { result ≡ Ok 0 → 0 < length bytes.now → Rose (faults self.old) (faults self.new) }
        ensures kept { OnErr result (Keeps (taken self.old) (taken self.new)) }
        ensures counted { faults self.old ≤ faults self.new }
        ensures failed { OnErr result (Rose (faults self.old) (faults self.new)) };
}
