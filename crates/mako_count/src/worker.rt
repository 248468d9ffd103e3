//! A worker and its seat.

ghost use Rattle.std.specs.Prelude.{◌≡◌, ◌+◌, ◌*◌, ◌^◌, ◌<◌, ◌≤◌};
ghost use Rattle.mako_count.specs.Views.{worker_of, IsSeatOf};
ghost use Rattle.mako_count.specs.States.{WorkerState, worker_state, IsWorkerHeld};
ghost use Rattle.mako_count.specs.Changes.{rested};
ghost use Rattle.mako_count.specs.Tables.{table_of, crew_of};
ghost use Rattle.mako_count.specs.declared.views.Hand.TheVariants.{Free, Holding};

use crate::count::Count;
use crate::rule::Place;
use std::marker::Model;

/// What a look at a worker's box came to.
#[derive(Clone, Copy, Debug, PartialEq, Eq)]
pub enum Taken {
    /// The worker holds a piece.
    Got,
    /// No piece waited.
    Empty,
}

/// Whether a piece was sent.
#[derive(Clone, Copy, Debug, PartialEq, Eq)]
pub enum Sent {
    Sent,
    /// The worker has sent as often as it may.
    Spent,
}

/// A worker of a count. It takes pieces from its box one at a time, and sends pieces while it holds one.
#[derive(Drop)]
pub struct Worker {
    seat: Place,
    number: usize,
    sends: u32,
    most: u32,
}

impl Model for Worker {
    ghost Value = { WorkerState };

    ghost view = { λ w. worker_state w.seat w.most };

    ghost invariant = { λ w. IsWorkerHeld w.seat w.number w.sends w.most };
}

impl Worker {
    pub(crate) fn at(seat: Place, number: usize, most: u32) -> Worker
        requires { IsWorkerHeld seat number 0 most }
        ensures { result ≡ worker_state seat most }
    {
        Worker {
            seat,
            number,
            sends: 0,
            most,
        }
    }

    /// Takes a piece from the worker's own box, if the box holds one.
    pub fn take(&mut self, count: &Count) -> Taken
        requires table { self.old.table ≡ table_of count.now }
        requires free { self.old.known.hand ≡ Free }
        ensures same { (self.new.table ≡ self.old.table) × (self.new.most ≡ self.old.most) }
        // Which it is depends on the number that the look at the box found, which stays known.
        ensures got { result ≡ Taken.Got → (0 < self.new.known.looked)
            × (self.new.known ≡ record self.old.known { looked = self.new.known.looked; hand = Holding }) }
        ensures empty { result ≡ Taken.Empty → self.new.known ≡ record self.old.known { looked = 0 } }
    {
        if count.look_at_box(&mut self.seat, self.number) == 0 {
            return Taken::Empty;
        }
        count.take_from_box(&mut self.seat, self.number);
        Taken::Got
    }

    /// Sends a piece to worker `to`, unless this worker has sent as often as it may.
    pub fn send(&mut self, count: &Count, to: u32) -> Sent
        requires table { self.old.table ≡ table_of count.now }
        requires holds { self.old.known.hand ≡ Holding }
        requires to { to < crew_of count.now }
        ensures same { (self.new.table ≡ self.old.table) × (self.new.most ≡ self.old.most) }
        ensures spent { result ≡ Sent.Spent → (self.old.known.sends ≡ self.old.most) × (self.new ≡ self.old) }
        ensures sent { result ≡ Sent.Sent → (self.old.known.sends < self.old.most)
            × (self.new.known ≡ record self.old.known {
              sends = self.old.known.sends + 1;
              filled = 2 * crew_of count.now + to;
            }) }
    {
        if self.sends == self.most {
            return Sent::Spent;
        }
        count.raise_sent(&mut self.seat, self.number);
        self.sends += 1;
        count.fill_box(&mut self.seat, to as usize);
        Sent::Sent
    }

    /// The piece that the worker holds is handled.
    pub fn rest(&mut self, count: &Count)
        requires table { self.old.table ≡ table_of count.now }
        requires holds { self.old.known.hand ≡ Holding }
        ensures same { (self.new.table ≡ self.old.table) × (self.new.most ≡ self.old.most) }
        ensures rested { self.new.known ≡ rested self.old.known }
    {
        count.raise_handled(&mut self.seat, self.number);
    }

    pub(crate) fn into_seat(self) -> Place
        ensures seat { (result.table_id ≡ self.table) × IsSeatOf self.known result.me }
    {
        let Worker {
            seat,
            number: _,
            sends: _,
            most: _,
        } = self;
        seat
    }
}
