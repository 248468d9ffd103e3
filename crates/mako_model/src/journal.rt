//! The journal of a run: its history, in room that was set aside.

ghost use Rattle.std.specs.Prelude.{◌≡◌, ◌<◌, ◌++◌, ◌∷◌, [], length, slice_get, IfOk, Some};

use crate::point::Point;
use mako_words::Memory;
use std::alloc::Global;
use std::marker::Model;

/// A list of points, with room for a number of them.
#[derive(Drop)]
pub struct Journal {
    points: Vec<Point>,
    room: usize,
}

impl Model for Journal {
    ghost use Rattle.std.specs.Prelude.{◌≤◌, vec_capacity, vec_len};
    ghost use Rattle.mako_model.specs.Journals.{Entries};

    ghost Value = { Entries };

    ghost view = { λ j. record { points = j.points.items; room = j.room } };

    ghost invariant = { λ j. j.room ≤ vec_capacity j.points };
}

impl Journal {
    /// An empty journal without room. It takes no memory.
    pub fn new(alloc: Global) -> Journal
        ensures { result ≡ record { points = []; room = 0 } }
    {
        Journal {
            points: Vec::new(alloc),
            room: 0,
        }
    }

    /// An empty journal with room for this many points.
    pub fn with_room(alloc: Global, room: usize) -> Result<Journal, Memory>
        ensures empty { IfOk result (λ j. j.points ≡ []) }
        ensures room { IfOk result (λ j. j.room ≡ room) }
    {
        let points = Vec::with_capacity(alloc, room).map_err(|_| Memory)?;
        Ok(Journal { points, room })
    }

    /// Adds a point at the end.
    pub fn push(&mut self, point: Point)
        requires { length self.old.points < self.old.room }
        ensures points { self.new.points ≡ self.old.points ++ point ∷ [] }
        ensures room { self.new.room ≡ self.old.room }
    {
        self.points.push_reserved(point);
    }

    /// The number of points.
    pub fn len(&self) -> usize
        ensures { result ≡ length self.now.points }
    {
        self.points.len()
    }

    /// The point with this index.
    pub fn get(&self, index: usize) -> Point
        requires { index < length self.now.points }
        ensures { slice_get self.now.points index ≡ Some result }
    {
        self.points[index]
    }
}
