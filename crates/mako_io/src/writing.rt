//! Writing a whole piece.

ghost use Rattle.std.specs.Prelude.{◌+◌, ◌<◌, ◌≤◌, length, take, OnOk, OnErr, IfErr};
ghost use Rattle.std.specs.Io.KnownBytes.{Appends};
ghost use Rattle.mako_io.specs.Causes.{Rose};

use crate::sink::Sink;

/// A write failed, or took nothing.
#[derive(Clone, Copy, Debug, PartialEq, Eq)]
pub struct WriteFault {
    /// How many bytes, from the front, went out before it.
    pub went: usize,
}

/// Writes all the bytes, in as many writes as the sink needs. It takes no memory.
pub fn write_all<K: Sink>(sink: &mut K, bytes: &[u8]) -> Result<(), WriteFault>
    ensures whole { OnOk result (Appends (K.taken sink.old) (K.taken sink.new) bytes.now) }
    ensures went { IfErr result (λ fault. Appends (K.taken sink.old) (K.taken sink.new) (take fault.went bytes.now)) }
    ensures short { IfErr result (λ fault. fault.went < length bytes.now) }
    ensures fault { OnErr result (Rose (K.faults sink.old) (K.faults sink.new)) }
    ensures counted { K.faults sink.old ≤ K.faults sink.new }
{
    let mut went = 0;
    while went < bytes.len() {
        match sink.write(&bytes[went..]) {
            Ok(count) if count > 0 => went += count,
            _ => return Err(WriteFault { went }),
        }
    }
    Ok(())
}
