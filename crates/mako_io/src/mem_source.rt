//! A source over memory whose reads fail where that is asked for.

ghost use Rattle.std.specs.Prelude.{◌≡◌, ◌+◌, ◌<◌, ◌++◌, ◌↔◌, length, take, min, IfOk, OnErr, OnOk, IsErr, Contains};
ghost use Rattle.std.specs.Prelude.{Some};
ghost use Rattle.mako_io.specs.Causes.{raised};

use crate::calls::Calls;
use crate::rest::Rest;
use crate::source::{Failed, Source};
use std::marker::Model;

/// Gives these bytes, but for the calls that are to fail. Contracts see the bytes still to come, the
/// faults and the calls so far, and the numbers of the calls that fail.
#[derive(Drop)]
pub struct MemSource {
    rest: Rest,
    calls: Calls,
    faults: u64,
}

impl Model for MemSource {
    ghost use Rattle.mako_io.specs.InMemory.{MemSupply};

    ghost Value = { MemSupply };

    ghost view = { λ s. record {
      left = s.rest;
      faults = s.faults;
      calls = s.calls.made;
      fails = s.calls.fails.items;
    } };
}

impl MemSource {
    /// A source of these bytes. Its read calls are numbered from 1, and those whose number stands in
    /// `fails` fail.
    pub fn new(bytes: Vec<u8>, fails: Vec<u64>) -> MemSource
        ensures { result ≡ record { left = bytes.items; faults = 0; calls = 0; fails = fails.items } }
    {
        MemSource {
            rest: Rest::new(bytes),
            calls: Calls { made: 0, fails },
            faults: 0,
        }
    }
}

impl Source for MemSource {
    ghost left = { λ s. Some s.left };

    ghost faults = { λ s. s.faults };

    /// Gives as many bytes as fit.
    fn read(&mut self, buf: &mut [u8]) -> Result<usize, Failed>
        ensures fails { IsErr result ↔ Contains self.old.fails (raised self.old.calls) }
        ensures count { IfOk result (λ count. count ≡ min (length buf.old) (length self.old.left)) }
        ensures given { IfOk result (λ count. self.old.left ≡ take count buf.new ++ self.new.left) }
        ensures kept { OnErr result (self.new.left ≡ self.old.left) }
        ensures sound { OnOk result (self.new.faults ≡ self.old.faults) }
        ensures failed { OnErr result (self.new.faults ≡ raised self.old.faults) }
        ensures numbered { self.new.calls ≡ raised self.old.calls }
        ensures same_fails { self.new.fails ≡ self.old.fails }
    {
        if self.calls.next_fails() {
            self.faults = self.faults.saturating_add(1);
            return Err(Failed);
        }
        Ok(self.rest.give(buf))
    }
}
