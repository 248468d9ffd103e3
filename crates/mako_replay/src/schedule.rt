//! What is left of a schedule.

ghost use Rattle.std.specs.Prelude.{◌≡◌, ℕ, ◌<◌, ◌∷◌, List, length, slice_index, remove};
ghost use Rattle.mako_replay.specs.Schedules.{Left, chosen, left_after, left_at_start};
ghost use Rattle.mako_replay.specs.Standing.{IsAscending, IsDrawn, StandsFor, next_place};

use crate::draws::Draws;
use crate::order::Order;

/// What is left of a schedule.
#[derive(Drop)]
pub(crate) enum Schedule {
    /// Rounds, with the place of the next seat among those that are not at their end.
    Turns(usize),
    Draws(Draws),
}

impl Schedule {
    /// The schedule of an order, where so many seats are not at their end.
    pub(crate) fn new(order: Order, count: usize) -> Schedule
        ensures stands { (live : List ℕ) → count ≡ length live → StandsFor result (left_at_start order) live }
        ensures drawn { IsDrawn result count }
    {
        match order {
            Order::Turns => Schedule::Turns(0),
            Order::Seed(seed) => Schedule::Draws(Draws::new(seed, count)),
        }
    }

    /// The place of the next seat among those that are not at their end, of which there are so many.
    pub(crate) fn next(&self, count: usize) -> usize
        requires some { 0 < count }
        requires drawn { IsDrawn self.now count }
        ensures at { result ≡ next_place self.now count }
        ensures below { result < count }
    {
        match self {
            Schedule::Turns(next) if *next < count => *next,
            Schedule::Turns(_) => 0,
            Schedule::Draws(draws) => draws.place,
        }
    }

    /// The same place, which is then taken.
    pub(crate) fn choose(&mut self, count: usize) -> usize
        requires some { 0 < count }
        requires drawn { IsDrawn self.old count }
        ensures place { result < count }
        ensures at { result ≡ next_place self.old count }
        ensures drawn { IsDrawn self.new count }
        ensures chosen { (left : Left) (first : ℕ) (others : List ℕ) → count ≡ length (first ∷ others)
            → StandsFor self.old left (first ∷ others)
            → slice_index (first ∷ others) result ≡ chosen left first others }
        ensures left { (left : Left) (live : List ℕ) → count ≡ length live → IsAscending live
            → StandsFor self.old left live
            → StandsFor self.new (left_after left (slice_index live result)) live }
    {
        match self {
            Schedule::Turns(next) => {
                let place = if *next < count { *next } else { 0 };
                *next = place + 1;
                place
            }
            Schedule::Draws(draws) => draws.take(count),
        }
    }

    /// The seat at this place stepped last, and came to its end: those behind it move up, and so many are left.
    pub(crate) fn leave(&mut self, place: usize, count: usize)
        ensures stands { (left : Left) (live : List ℕ) → place < length live → count ≡ length (remove live place)
            → IsAscending live
            → StandsFor self.old (left_after left (slice_index live place)) live
            → StandsFor self.new (left_after left (slice_index live place)) (remove live place) }
        ensures drawn { IsDrawn self.new count }
    {
        match self {
            Schedule::Turns(next) => *next = place,
            Schedule::Draws(draws) => draws.recount(count),
        }
    }
}
