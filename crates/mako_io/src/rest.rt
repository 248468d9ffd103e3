//! The bytes of a source over memory.

ghost use Rattle.std.specs.Prelude.{◌≡◌, ◌≤◌, ℕ, List, length, take, drop, min, ◌++◌};

use std::marker::Model;

/// Bytes, and how many of them were given. Contracts see those still to come.
#[derive(Drop)]
pub struct Rest {
    bytes: Vec<u8>,
    given: usize,
}

impl Model for Rest {
    ghost Value = { List ℕ };

    ghost view = { λ r. drop r.given r.bytes.items };

    ghost invariant = { λ r. r.given ≤ length r.bytes.items };
}

impl Rest {
    /// Bytes of which none was given.
    pub fn new(bytes: Vec<u8>) -> Rest
        ensures { result ≡ bytes.items }
    {
        Rest { bytes, given: 0 }
    }

    /// Moves as many bytes as fit to the front of the buffer, and answers how many.
    pub fn give(&mut self, buf: &mut [u8]) -> usize
        ensures count { result ≡ min (length buf.old) (length self.old) }
        ensures given { self.old ≡ take result buf.new ++ self.new }
    {
        let rest = &self.bytes[self.given..];
        let count = rest.len().min(buf.len());
        buf[..count].copy_from_slice(&rest[..count]);
        self.given += count;
        count
    }
}
