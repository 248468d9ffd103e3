//! Whether there was no room.

ghost use Rattle.std.specs.Prelude.{ℕ, ◌≡◌, ◌<◌, ◌≤◌, ◌-◌, ◌^◌, ◌/◌, ◌↔◌, min, IsTrue};
ghost use Rattle.mako_model.specs.Dead.{names_made};
ghost use Rattle.mako_model.specs.Starved.{IsStarved, IsAwaited, AreSpent, IsTabletFull, IsEntryUnavailable, words_by};
ghost use Rattle.mako_model.specs.Starved.{words_made};
ghost use Rattle.mako_judge.specs.Trials.{script, front, IsFair, Blocks, AreTabletsFull};

use crate::points::{first_snap, since, snaps};
use crate::trial::Trial;
use mako_model::{Call, Point, Reply};
use mako_words::Name;

impl<'a> Trial<'a> {
    /// Whether a new object of the mutator had no room behind these points, which made these names.
    pub fn is_starved(&self, before: &[Point], made: &[Name], mutator: u8, fields: u8) -> bool
        requires fair { IsFair self.now }
        requires made { made.now ≡ names_made before.now }
        ensures { IsTrue result ↔ IsStarved (script self.now) (front self.now) before.now mutator fields }
    {
        self.is_full_after_wait(before, made, mutator, fields)
            || self.is_full_at_end(before, made, fields)
    }

    /// Whether no tablet had room in the cycle that the mutator waited for.
    fn is_full_after_wait(&self, before: &[Point], made: &[Name], mutator: u8, fields: u8) -> bool
        requires fair { IsFair self.now }
        requires made { made.now ≡ names_made before.now }
        ensures { IsTrue result ↔ ((cycle : ℕ) × IsAwaited (front self.now) before.now mutator cycle
            × AreTabletsFull (script self.now) (front self.now) before.now cycle fields) }
    {
        match first_snap(since(before, mutator)) {
            Some(cycle) => {
                cycle as usize <= self.cycles.len()
                    && self.are_tablets_full(before, made, cycle as usize, fields)
            }
            None => false,
        }
    }

    /// Whether no cycle is left, and no tablet had room in the one before the last.
    fn is_full_at_end(&self, before: &[Point], made: &[Name], fields: u8) -> bool
        requires fair { IsFair self.now }
        requires made { made.now ≡ names_made before.now }
        ensures { IsTrue result ↔ ((cycle : ℕ) × AreSpent (script self.now) before.now cycle
            × AreTabletsFull (script self.now) (front self.now) before.now cycle fields) }
    {
        let cycles = self.setup.cycles as usize;
        snaps(before) == cycles
            && self.are_tablets_full(before, made, cycles.saturating_sub(1), fields)
    }

    fn are_tablets_full(&self, before: &[Point], made: &[Name], cycle: usize, fields: u8) -> bool
        requires fair { IsFair self.now }
        requires made { made.now ≡ names_made before.now }
        ensures { IsTrue result ↔ AreTabletsFull (script self.now) (front self.now) before.now cycle fields }
    {
        for tablet in 0..self.setup.tablets {
            if !self.is_tablet_full(before, made, cycle, fields, tablet) {
                return false;
            }
        }
        true
    }

    fn is_tablet_full(
        &self,
        before: &[Point],
        made: &[Name],
        cycle: usize,
        fields: u8,
        tablet: u32,
    ) -> bool
        requires fair { IsFair self.now }
        requires made { made.now ≡ names_made before.now }
        ensures { IsTrue result ↔ IsTabletFull (script self.now) (front self.now) before.now cycle fields tablet }
    {
        let words = self.words_made(tablet, before);
        self.are_entries_unavailable(before, made, cycle, tablet)
            || (self.setup.words as u64) < words.saturating_add(fields as u64 + 1)
    }

    fn are_entries_unavailable(
        &self,
        before: &[Point],
        made: &[Name],
        cycle: usize,
        tablet: u32,
    ) -> bool
        requires fair { IsFair self.now }
        requires made { made.now ≡ names_made before.now }
        ensures { IsTrue result ↔ ((entry : ℕ) → entry / (script self.now).entries ≡ tablet
            → IsEntryUnavailable (script self.now) (front self.now) before.now cycle entry) }
    {
        let entries = self.setup.entries as u64;
        if entries == 0 {
            return tablet != 0;
        }
        let first = tablet as u64 * entries;
        for entry in first..first + entries {
            if !self.is_entry_unavailable(before, made, cycle, entry) {
                return false;
            }
        }
        true
    }

    fn is_entry_unavailable(
        &self,
        before: &[Point],
        made: &[Name],
        cycle: usize,
        entry: u64,
    ) -> bool
        requires fair { IsFair self.now }
        requires made { made.now ≡ names_made before.now }
        ensures { IsTrue result ↔ IsEntryUnavailable (script self.now) (front self.now) before.now cycle entry }
    {
        for name in made {
            if self.blocks(*name, cycle, entry) {
                return true;
            }
        }
        false
    }

    /// Whether the name is one of the entry that is not dead in the cycle, or its last.
    fn blocks(&self, name: Name, cycle: usize, entry: u64) -> bool
        requires { IsFair self.now }
        ensures { IsTrue result ↔ Blocks (script self.now) self.now.points.now cycle entry name }
    {
        name.entry as u64 == entry
            && (name.generation == self.setup.generations.saturating_sub(1)
                || !self.is_dead(cycle, name))
    }

    /// The words of all objects made in the tablet, or the last `u64` where they are more.
    fn words_made(&self, tablet: u32, points: &[Point]) -> u64
        ensures { result ≡ min (words_made (script self.now) tablet points.now) (2 ^ 64 - 1) }
    {
        let mut words = if tablet == 0 {
            self.setup.board as u64 + 1
        } else {
            0
        };
        for point in points {
            words = words.saturating_add(self.words_by(tablet, *point));
        }
        words
    }

    fn words_by(&self, tablet: u32, point: Point) -> u64
        ensures { result ≡ words_by (script self.now) tablet point }
    {
        match point {
            Point::Did {
                call: Call::New { fields, .. },
                reply: Reply::Made(name),
                ..
            } if self.tablet_of(name) == tablet => fields as u64 + 1,
            _ => 0,
        }
    }

    /// The tablet of a name's entry, which is 0 where tablets have no entries.
    fn tablet_of(&self, name: Name) -> u32
        ensures { result ≡ name.entry / (script self.now).entries }
    {
        name.entry.checked_div(self.setup.entries).unwrap_or(0)
    }
}
