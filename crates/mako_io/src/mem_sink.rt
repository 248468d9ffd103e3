//! A sink over memory whose writes fail where that is asked for.

ghost use Rattle.std.specs.Prelude.{◌≡◌, ◌<◌, ◌++◌, ◌↔◌, [], take, IfOk, OnOk, OnErr, IsErr, Contains, Some};
ghost use Rattle.mako_io.specs.InMemory.{fitting, faults_after};
ghost use Rattle.mako_io.specs.Causes.{raised};

use crate::calls::Calls;
use crate::memory::Memory;
use crate::sink::Sink;
use crate::source::Failed;
use crate::store::Store;
use std::alloc::Global;
use std::marker::Model;

/// Takes bytes while it has room, but for the calls that are to fail. Contracts see the bytes taken so
/// far, the room for all of them, the faults and the calls so far, and the numbers of the calls that fail.
#[derive(Drop)]
pub struct MemSink {
    store: Store,
    calls: Calls,
    faults: u64,
}

impl Model for MemSink {
    ghost use Rattle.mako_io.specs.InMemory.{MemStock};

    ghost Value = { MemStock };

    ghost view = { λ s. record {
      taken = s.store.taken;
      room = s.store.room;
      faults = s.faults;
      calls = s.calls.made;
      fails = s.calls.fails.items;
    } };
}

impl MemSink {
    /// A sink with room for so many bytes in all. Its write calls are numbered from 1, and those whose
    /// number stands in `fails` fail.
    pub fn new(alloc: Global, room: usize, fails: Vec<u64>) -> Result<MemSink, Memory>
        ensures { IfOk result (λ sink. sink ≡ record {
          taken = [];
          room = room;
          faults = 0;
          calls = 0;
          fails = fails.items;
        }) }
    {
        Ok(MemSink {
            store: Store::with_room(alloc, room)?,
            calls: Calls { made: 0, fails },
            faults: 0,
        })
    }

    /// The bytes taken so far.
    pub fn bytes(&self) -> &[u8]
        ensures { result.now ≡ self.now.taken }
    {
        self.store.bytes()
    }
}

impl Sink for MemSink {
    ghost taken = { λ s. Some s.taken };

    ghost faults = { λ s. s.faults };

    /// Takes what still fits. A piece that is not empty and finds no room left is answered `Ok(0)` and
    /// raises the count of faults.
    fn write(&mut self, bytes: &[u8]) -> Result<usize, Failed>
        ensures fails { IsErr result ↔ Contains self.old.fails (raised self.old.calls) }
        ensures count { IfOk result (λ count. count ≡ fitting self.old.taken self.old.room bytes.now) }
        ensures taken { IfOk result (λ count. self.new.taken ≡ self.old.taken ++ take count bytes.now) }
        ensures kept { OnErr result (self.new.taken ≡ self.old.taken) }
        ensures full { OnOk result
            (self.new.faults ≡ faults_after self.old.faults self.old.taken self.old.room bytes.now) }
        ensures failed { OnErr result (self.new.faults ≡ raised self.old.faults) }
        ensures numbered { self.new.calls ≡ raised self.old.calls }
        ensures room { self.new.room ≡ self.old.room }
        ensures same_fails { self.new.fails ≡ self.old.fails }
    {
        if self.calls.next_fails() {
            self.faults = self.faults.saturating_add(1);
            return Err(Failed);
        }
        let count = self.store.take(bytes);
        if count == 0 && !bytes.is_empty() {
            self.faults = self.faults.saturating_add(1);
        }
        Ok(count)
    }
}
