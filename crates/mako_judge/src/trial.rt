//! The trial of a legal history.

ghost use Rattle.std.specs.Prelude.{◌≡◌, ◌<◌, ◌≤◌, ◌↔◌, ◌++◌, ◌∷◌, [], length, take, slice_get, Some, MatchOption};
ghost use Rattle.std.specs.Prelude.{IfOk, IsTrue};
ghost use Rattle.mako_model.specs.declared.point.Point.{Point};
ghost use Rattle.mako_model.specs.Dead.{names_made, IsDead};
ghost use Rattle.mako_model.specs.LawfulFronts.{IsInRange};
ghost use Rattle.mako_judge.specs.Clauses.{HoldsAt, HoldsBelow, IsFirstBreach, IsAnswered, MakesInRange, IsReuse};
ghost use Rattle.mako_judge.specs.Clauses.{MakesAgain, RefusesStarved, FollowsProgram};
ghost use Rattle.mako_judge.specs.Trials.{script, front, IsFair};

use crate::deaths::Deaths;
use crate::names::{has, name_made, names_made};
use crate::points::{has_snap, since, snaps};
use crate::programs::calls_made;
use crate::setup::Setup;
use crate::verdict::Clause;
use mako_model::{Call, Cycles, Point, Reply};
use mako_words::{Memory, Name};
use std::alloc::Global;

/// A legal history and its finished cycles, which are judged against a script, and the dead names.
#[derive(Drop)]
pub struct Trial<'a> {
    pub setup: &'a Setup,
    pub points: &'a [Point],
    pub cycles: &'a Cycles,
    pub deaths: &'a Deaths,
}

impl<'a> Trial<'a> {
    /// The first point that does not meet the clause.
    pub fn first_breach(&self, alloc: Global, clause: Clause) -> Result<Option<usize>, Memory>
        requires { IsFair self.now }
        ensures { IfOk result
            (λ place. MatchOption place
            (HoldsBelow (script self.now) (front self.now) clause (length self.now.points.now))
            (IsFirstBreach (script self.now) (front self.now) clause)) }
    {
        for place in 0..self.points.len() {
            if !self.holds_at(alloc, clause, place)? {
                return Ok(Some(place));
            }
        }
        Ok(None)
    }

    /// Whether the point with this index meets the clause.
    fn holds_at(&self, alloc: Global, clause: Clause, place: usize) -> Result<bool, Memory>
        requires fair { IsFair self.now }
        requires within { place < length self.now.points.now }
        ensures { IfOk result (λ holds. (point : Point) → slice_get self.now.points.now place ≡ Some point
            → IsTrue holds ↔ HoldsAt (script self.now) (front self.now) clause (take place self.now.points.now) point) }
    {
        let before = &self.points[..place];
        let point = self.points[place];
        match clause {
            Clause::Waits => Ok(self.is_answered(before, point)),
            Clause::Names => Ok(self.makes_in_range(point)),
            Clause::Reuses => Ok(self.makes_again(before, &names_made(alloc, before)?, point)),
            Clause::Starved => Ok(self.refuses_starved(before, &names_made(alloc, before)?, point)),
            Clause::Programs => Ok(self.follows_program(&self.points[..place + 1], point)),
            Clause::Legal | Clause::Finished | Clause::Unfinished | Clause::Freed => Ok(true),
        }
    }

    fn is_answered(&self, before: &[Point], point: Point) -> bool
        ensures { IsTrue result ↔ IsAnswered (front self.now) before.now point }
    {
        match point {
            Point::Did {
                mutator,
                reply: Reply::Cycle(cycle),
                ..
            } => { cycle as usize <= self.cycles.len() && has_snap(since(before, mutator), cycle) }
            _ => true,
        }
    }

    /// Whether there are that entry and that generation.
    pub fn is_in_range(&self, name: Name) -> bool
        ensures { IsTrue result ↔ IsInRange (script self.now) name }
    {
        (name.entry as u64) < self.setup.tablets as u64 * self.setup.entries as u64
            && name.generation < self.setup.generations
    }

    fn makes_in_range(&self, point: Point) -> bool
        ensures { IsTrue result ↔ MakesInRange (script self.now) point }
    {
        match name_made(point) {
            Some(name) => self.is_in_range(name),
            None => true,
        }
    }

    fn makes_again(&self, before: &[Point], made: &[Name], point: Point) -> bool
        requires fair { IsFair self.now }
        requires made { made.now ≡ names_made before.now }
        ensures { IsTrue result ↔ MakesAgain (script self.now) (front self.now) before.now point }
    {
        match name_made(point) {
            Some(name) => self.is_reuse(before, made, name),
            None => true,
        }
    }

    fn is_reuse(&self, before: &[Point], made: &[Name], name: Name) -> bool
        requires fair { IsFair self.now }
        requires made { made.now ≡ names_made before.now }
        ensures { IsTrue result ↔ IsReuse (script self.now) (front self.now) before.now name }
    {
        if name.generation == 0 {
            return true;
        }
        let last = Name {
            entry: name.entry,
            generation: name.generation - 1,
        };
        has(made, last) && self.is_dead(snaps(before), last)
    }

    /// Whether the name is dead in the cycle.
    pub fn is_dead(&self, cycle: usize, name: Name) -> bool
        requires { IsFair self.now }
        ensures { IsTrue result ↔ IsDead (script self.now) self.now.points.now cycle name }
    {
        has(self.deaths.of(cycle), name)
    }

    fn refuses_starved(&self, before: &[Point], made: &[Name], point: Point) -> bool
        requires fair { IsFair self.now }
        requires made { made.now ≡ names_made before.now }
        ensures { IsTrue result ↔ RefusesStarved (script self.now) (front self.now) before.now point }
    {
        match point {
            Point::Did {
                mutator,
                call: Call::New { fields, .. },
                reply: Reply::Full,
            } => self.is_starved(before, made, mutator, fields),
            _ => true,
        }
    }

    fn follows_program(&self, points: &[Point], point: Point) -> bool
        ensures { IsTrue result ↔ FollowsProgram (script self.now) points.now point }
    {
        match point {
            Point::Did { mutator, .. } => {
                self.setup.programs.len() <= mutator as usize
                    || calls_made(
                        &self.setup.programs[mutator as usize],
                        mutator as usize,
                        points,
                    )
                    .is_some()
            }
            Point::Snap { .. } => true,
        }
    }
}
