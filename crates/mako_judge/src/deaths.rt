//! The names that are dead in each cycle.

ghost use Rattle.std.specs.Prelude.{◌≡◌, ◌++◌, ◌∷◌, [], ◌↔◌, length, IfOk, OnOk, IsTrue};
ghost use Rattle.std.specs.List.{Contains};
ghost use Rattle.mako_words.specs.declared.name.Name.{Name};
ghost use Rattle.mako_judge.specs.Deaths.{lists_in, IsListed};

use mako_words::{Memory, Name};
use std::alloc::Global;

/// The names that are dead in each cycle that has begun.
#[derive(Drop)]
pub struct Deaths {
    lists: Vec<Vec<Name>>,
}

impl Deaths {
    /// No cycle has begun.
    pub fn new(alloc: Global) -> Deaths
        ensures { lists_in result ≡ [] }
    {
        Deaths {
            lists: Vec::new(alloc),
        }
    }

    /// Adds the list of the next cycle.
    pub fn push(&mut self, names: Vec<Name>) -> Result<(), Memory>
        ensures { OnOk result (lists_in self.new ≡ lists_in self.old ++ names.items ∷ []) }
    {
        self.lists.push(names).map_err(|_| Memory)
    }

    /// The number of cycles that have begun.
    pub fn len(&self) -> usize
        ensures { result ≡ length (lists_in self.now) }
    {
        self.lists.len()
    }

    /// The names that are dead in the cycle, or none where it has not begun. Cycles are numbered from 1.
    pub fn of(&self, cycle: usize) -> &[Name]
        ensures { (name : Name) → Contains result.now name ↔ IsListed (lists_in self.now) cycle name }
    {
        if 0 < cycle && cycle <= self.lists.len() {
            &self.lists[cycle - 1]
        } else {
            &[]
        }
    }
}
