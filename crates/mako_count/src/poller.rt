//! The poller, which counts twice.

ghost use Rattle.std.specs.Prelude.{◌≡◌, ◌+◌, ◌++◌, ◌∷◌, []};
ghost use Rattle.mako_count.specs.States.{PollerState, poller_state, IsPollerHeld};
ghost use Rattle.mako_count.specs.Passes.{IsWholeReading};
ghost use Rattle.mako_count.specs.Answering.{IsAnswer, IsVerdict};
ghost use Rattle.mako_count.specs.Meetings.{MeetingTells};
ghost use Rattle.mako_count.specs.Tables.{table_of, crew_of};
ghost use Rattle.mako_count.specs.declared.views.Hand.TheVariants.{Free};

use crate::count::Count;
use crate::passes::Sums;
use crate::rule::Place;
use crate::worker::Worker;
use std::marker::Model;

/// What a poll found.
#[derive(Clone, Copy, Debug, PartialEq, Eq)]
pub enum Counting {
    /// No piece is left. So many were sent, and all are handled.
    Told {
        pieces: u64,
    },
    /// The sums that the two passes found, which are not all equal.
    NotYet {
        sent: u64,
        handled: u64,
        later_sent: u64,
        later_handled: u64,
    },
}

/// What two passes come to.
fn verdict(first: Sums, later: Sums) -> Counting
    ensures { IsVerdict first later result }
{
    if first.handled == first.sent && later.sent == first.sent && later.handled == first.sent {
        return Counting::Told { pieces: first.sent };
    }
    Counting::NotYet {
        sent: first.sent,
        handled: first.handled,
        later_sent: later.sent,
        later_handled: later.handled,
    }
}

/// The poller of a count.
#[derive(Drop)]
pub struct CountPoller {
    seat: Place,
}

impl Model for CountPoller {
    ghost Value = { PollerState };

    ghost view = { λ p. poller_state p.seat };

    ghost invariant = { λ p. IsPollerHeld p.seat };
}

impl CountPoller {
    pub(crate) fn at(seat: Place) -> CountPoller
        requires { IsPollerHeld seat }
        ensures { result ≡ poller_state seat }
    {
        CountPoller { seat }
    }

    /// Reads what each worker has sent and handled, and then all again. Where the four sums are equal, no piece is
    /// left (the four counter method, after Mattern 1987).
    pub fn poll(&mut self, count: &Count) -> Counting
        requires table { self.old.table ≡ table_of count.now }
        ensures same { (self.new.table ≡ self.old.table) × (self.new.met ≡ self.old.met) }
        // Two passes were made, in each of which each word was read, and the sums are those of the words found.
        ensures passes { self.new.poll.passes ≡ self.old.poll.passes + 2 }
        ensures whole { IsWholeReading (crew_of count.now) self.new.poll.first
            × IsWholeReading (crew_of count.now) self.new.poll.later }
        ensures answer { IsAnswer self.old.poll self.new.poll result }
    {
        let first = count.pass(&mut self.seat);
        let later = count.pass(&mut self.seat);
        verdict(first, later)
    }

    /// Takes in the seat of a worker, which is used up.
    pub fn meet(&mut self, count: &Count, worker: Worker)
        requires table { (self.old.table ≡ table_of count.now) × (worker.table ≡ table_of count.now) }
        requires free { worker.known.hand ≡ Free }
        ensures same { (self.new.table ≡ self.old.table) × (self.new.poll ≡ self.old.poll) }
        ensures met { self.new.met ≡ self.old.met ++ worker.known ∷ [] }
        // A poller that was told knows what the workers that it has met have done.
        ensures tells { MeetingTells (crew_of count.now) self.new.met self.new.poll }
    {
        count.take_in(&mut self.seat, worker.into_seat());
    }
}
