//! The bytes of a sink over memory.

ghost use Rattle.std.specs.Prelude.{◌≡◌, ◌≤◌, ◌<◌, [], length, take, min, ◌-◌, ◌++◌, IfOk, vec_capacity};
ghost use Rattle.mako_io.specs.InMemory.{fitting};

use crate::memory::Memory;
use std::alloc::Global;
use std::marker::Model;

/// Bytes, and for how many there is room in all. Contracts see both.
#[derive(Drop)]
pub struct Store {
    bytes: Vec<u8>,
    room: usize,
}

impl Model for Store {
    ghost use Rattle.std.specs.Prelude.{◌≤◌, length, vec_capacity};
    ghost use Rattle.mako_io.specs.InMemory.{Stock};

    ghost Value = { Stock };

    ghost view = { λ s. record { taken = s.bytes.items; room = s.room } };

    ghost invariant = { λ s. (s.room ≤ vec_capacity s.bytes) × (length s.bytes.items ≤ s.room) };
}

impl Store {
    /// Nothing is taken yet, and there is room for so many bytes in all.
    pub fn with_room(alloc: Global, room: usize) -> Result<Store, Memory>
        ensures { IfOk result (λ store. store ≡ record { taken = []; room = room }) }
    {
        let bytes = Vec::with_capacity(alloc, room).map_err(|_| Memory)?;
        Ok(Store { bytes, room })
    }

    /// Takes what still fits, and answers how many bytes that is.
    pub fn take(&mut self, piece: &[u8]) -> usize
        ensures count { result ≡ fitting self.old.taken self.old.room piece.now }
        ensures taken { self.new.taken ≡ self.old.taken ++ take result piece.now }
        ensures room { self.new.room ≡ self.old.room }
    {
        let count = piece.len().min(self.room - self.bytes.len());
        match self.bytes.extend_from_slice(&piece[..count]) {
            Ok(()) => count,
            Err(_) => unreachable!(),
        }
    }

    /// The bytes taken so far.
    pub fn bytes(&self) -> &[u8]
        ensures { result.now ≡ self.now.taken }
    {
        &self.bytes
    }
}
