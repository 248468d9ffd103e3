//! The finished cycles of a run, in room that was set aside.

ghost use Rattle.std.specs.Prelude.{◌≡◌, ◌<◌, ◌≤◌, ◌+◌, ◌-◌, ◌++◌, ◌∷◌, [], length, slice_get, slice_index, sum_by};
ghost use Rattle.std.specs.Prelude.{IfOk, Some};
ghost use Rattle.mako_model.specs.CycleLists.{pieces, start_of, RiseTo};

use mako_words::{Memory, Name};
use std::alloc::Global;
use std::marker::Model;

/// The names freed in each finished cycle.
#[derive(Drop)]
pub struct Cycles {
    names: Vec<Name>,
    ends: Vec<usize>,
    names_room: usize,
    cycles_room: usize,
}

impl Model for Cycles {
    ghost use Rattle.mako_model.specs.CycleLists.{Lists, lists_of, IsKept};

    ghost Value = { Lists };

    ghost view = { lists_of };

    ghost invariant = { IsKept };
}

impl Cycles {
    /// No finished cycle, and no room for one. It takes no memory.
    pub fn new(alloc: Global) -> Cycles
        ensures { result ≡ record { lists = []; names_room = 0; cycles_room = 0 } }
    {
        Cycles {
            names: Vec::new(alloc),
            ends: Vec::new(alloc),
            names_room: 0,
            cycles_room: 0,
        }
    }

    /// No finished cycle, with room for this many names over all cycles and for this many cycles.
    pub fn with_room(alloc: Global, names: usize, cycles: usize) -> Result<Cycles, Memory>
        ensures empty { IfOk result (λ c. c.lists ≡ []) }
        ensures names_room { IfOk result (λ c. c.names_room ≡ names) }
        ensures cycles_room { IfOk result (λ c. c.cycles_room ≡ cycles) }
    {
        Ok(Cycles {
            names: Vec::with_capacity(alloc, names).map_err(|_| Memory)?,
            ends: Vec::with_capacity(alloc, cycles).map_err(|_| Memory)?,
            names_room: names,
            cycles_room: cycles,
        })
    }

    /// Adds a finished cycle that freed these names.
    pub fn push(&mut self, freed: &[Name])
        requires cycles { length self.old.lists < self.old.cycles_room }
        requires names { sum_by length self.old.lists + length freed.now ≤ self.old.names_room }
        ensures lists { self.new.lists ≡ self.old.lists ++ freed.now ∷ [] }
        ensures names_room { self.new.names_room ≡ self.old.names_room }
        ensures cycles_room { self.new.cycles_room ≡ self.old.cycles_room }
    {
        if self.names.extend_from_slice(freed).is_err() {
            unreachable!()
        }
        let end = self.names.len();
        if self.ends.push(end).is_err() {
            unreachable!()
        }
    }

    /// The number of finished cycles.
    pub fn len(&self) -> usize
        ensures { result ≡ length self.now.lists }
    {
        self.ends.len()
    }

    /// The names freed in this cycle. Cycles are numbered from 1.
    pub fn freed(&self, cycle: usize) -> &[Name]
        requires first { 1 ≤ cycle }
        requires last { cycle ≤ length self.now.lists }
        ensures { slice_get self.now.lists (cycle - 1) ≡ Some result.now }
    {
        piece(&self.names, &self.ends, cycle - 1)
    }
}

/// The part of the names that ends at the end with this index.
fn piece<'a>(names: &'a [Name], ends: &[usize], index: usize) -> &'a [Name]
    requires rise { RiseTo 0 ends.now (length names.now) }
    requires within { index < length ends.now }
    ensures { slice_get (pieces names.now 0 ends.now) index ≡ Some result.now }
{
    let (start, end) = bounds(names, ends, index);
    &names[start..end]
}

/// Where the part with this index begins and ends.
fn bounds(names: &[Name], ends: &[usize], index: usize) -> (usize, usize)
    requires rise { RiseTo 0 ends.now (length names.now) }
    requires within { index < length ends.now }
    ensures start { result.0 ≡ start_of 0 ends.now index }
    ensures end { result.1 ≡ slice_index ends.now index }
    ensures order { result.0 ≤ result.1 }
    ensures last { result.1 ≤ length names.now }
{
    if index == 0 {
        (0, ends[0])
    } else {
        (ends[index - 1], ends[index])
    }
}
