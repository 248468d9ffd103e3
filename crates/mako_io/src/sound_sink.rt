//! A sink over memory that fails only where it is full.

ghost use Rattle.std.specs.Prelude.{◌≡◌, ◌<◌, ◌++◌, [], take, IfOk, Some};
ghost use Rattle.mako_io.specs.InMemory.{fitting, faults_after};

use crate::memory::Memory;
use crate::sink::Sink;
use crate::source::Failed;
use crate::store::Store;
use std::alloc::Global;
use std::marker::Model;

/// Takes bytes while it has room. Contracts see the bytes taken so far, the room for all of them, and
/// the faults so far.
#[derive(Drop)]
pub struct SoundSink {
    store: Store,
    faults: u64,
}

impl Model for SoundSink {
    ghost use Rattle.mako_io.specs.InMemory.{SoundStock};

    ghost Value = { SoundStock };

    ghost view = { λ s. record { taken = s.store.taken; room = s.store.room; faults = s.faults } };
}

impl SoundSink {
    /// A sink with room for so many bytes in all.
    pub fn new(alloc: Global, room: usize) -> Result<SoundSink, Memory>
        ensures { IfOk result (λ sink. sink ≡ record { taken = []; room = room; faults = 0 }) }
    {
        Ok(SoundSink {
            store: Store::with_room(alloc, room)?,
            faults: 0,
        })
    }

    /// The bytes taken so far.
    pub fn bytes(&self) -> &[u8]
        ensures { result.now ≡ self.now.taken }
    {
        self.store.bytes()
    }
}

impl Sink for SoundSink {
    ghost taken = { λ s. Some s.taken };

    ghost faults = { λ s. s.faults };

    /// Takes what still fits. A piece that is not empty and finds no room left raises the count of faults.
    fn write(&mut self, bytes: &[u8]) -> Result<usize, Failed>
        ensures count { result ≡ Ok (fitting self.old.taken self.old.room bytes.now) }
        ensures taken { self.new.taken ≡ self.old.taken ++ take
            (fitting self.old.taken self.old.room bytes.now) bytes.now }
        ensures room { self.new.room ≡ self.old.room }
        ensures full { self.new.faults ≡ faults_after self.old.faults self.old.taken self.old.room bytes.now }
    {
        let count = self.store.take(bytes);
        if count == 0 && !bytes.is_empty() {
            self.faults = self.faults.saturating_add(1);
        }
        Ok(count)
    }
}
