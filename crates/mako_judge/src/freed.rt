//! Whether the finished cycles freed what died in them.

ghost use Rattle.std.specs.Prelude.{◌↔◌, IsTrue};
ghost use Rattle.std.specs.List.{Contains};
ghost use Rattle.mako_words.specs.declared.name.Name.{Name};
ghost use Rattle.mako_model.specs.Dead.{AreFreed};
ghost use Rattle.mako_judge.specs.Clauses.{AreListsFreed};
ghost use Rattle.mako_judge.specs.Trials.{script, front, IsFair, DiedIn};

use crate::names::{has, is_rising};
use crate::trial::Trial;
use mako_words::Name;

impl<'a> Trial<'a> {
    /// Whether each finished cycle freed the names that died in it, in order.
    pub fn are_lists_freed(&self) -> bool
        requires { IsFair self.now }
        ensures { IsTrue result ↔ AreListsFreed (script self.now) (front self.now) }
    {
        for index in 0..self.cycles.len() {
            if !self.is_freed(index + 1, self.cycles.freed(index + 1)) {
                return false;
            }
        }
        true
    }

    fn is_freed(&self, cycle: usize, names: &[Name]) -> bool
        requires { IsFair self.now }
        ensures { IsTrue result ↔ AreFreed (script self.now) self.now.points.now cycle names.now }
    {
        is_rising(names) && self.are_those(cycle, names)
    }

    /// Whether the names are those that died in the cycle.
    fn are_those(&self, cycle: usize, names: &[Name]) -> bool
        requires { IsFair self.now }
        ensures { IsTrue result ↔ ((name : Name)
            → Contains names.now name ↔ DiedIn (script self.now) self.now.points.now cycle name) }
    {
        self.have_died(cycle, names) && self.are_all(cycle, names)
    }

    /// Whether each of the names died in the cycle.
    fn have_died(&self, cycle: usize, names: &[Name]) -> bool
        requires { IsFair self.now }
        ensures { IsTrue result ↔ ((name : Name) → Contains names.now name
            → DiedIn (script self.now) self.now.points.now cycle name) }
    {
        for name in names {
            if !self.has_died(cycle, *name) {
                return false;
            }
        }
        true
    }

    /// Whether each name that died in the cycle is one of these.
    fn are_all(&self, cycle: usize, names: &[Name]) -> bool
        requires { IsFair self.now }
        ensures { IsTrue result ↔ ((name : Name) → DiedIn (script self.now) self.now.points.now cycle name
            → Contains names.now name) }
    {
        let dead = self.deaths.of(cycle);
        for name in dead {
            if self.has_died(cycle, *name) && !has(names, *name) {
                return false;
            }
        }
        true
    }

    fn has_died(&self, cycle: usize, name: Name) -> bool
        requires { IsFair self.now }
        ensures { IsTrue result ↔ DiedIn (script self.now) self.now.points.now cycle name }
    {
        self.is_dead(cycle, name) && !self.is_dead(cycle.saturating_sub(1), name)
    }
}
