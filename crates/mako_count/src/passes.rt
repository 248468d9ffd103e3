//! One pass of the poller over the words of all workers.

ghost use Rattle.std.specs.Prelude.{◌≡◌, ◌+◌, ◌*◌, ◌^◌, ◌<◌, ◌≤◌, length};
ghost use Rattle.mako_count.specs.Views.{poll_of, IsPollers};
ghost use Rattle.mako_count.specs.Passes.{IsPassTo, IsNumbersOf};
ghost use Rattle.mako_count.specs.Tables.{table_of, crew_of};

use crate::count::Count;
use crate::rule::Place;

/// What one worker, or one pass over all, has sent and handled.
#[derive(Clone, Copy)]
pub struct Sums {
    pub sent: u64,
    pub handled: u64,
}

impl Count {
    /// Reads the numbers of the first worker, with which a pass begins.
    fn read_first(&self, seat: &mut Place) -> Sums
        requires table { seat.old.table_id ≡ table_of self.now }
        requires poller { IsPollers seat.old.me }
        ensures table { seat.new.table_id ≡ seat.old.table_id }
        ensures poller { IsPollers seat.new.me × (seat.new.me.0.workers ≡ seat.old.me.0.workers) }
        ensures pass { IsPassTo 1 (poll_of seat.old.me.0) (poll_of seat.new.me.0) result.sent result.handled }
    {
        let sent = self.begin_pass(seat);
        let handled = self.read_handled(seat, 0);
        Sums { sent, handled }
    }

    /// Reads the numbers of the next worker.
    fn read_next(&self, seat: &mut Place, number: usize) -> Sums
        requires table { (seat.old.table_id ≡ table_of self.now) × (number < crew_of self.now) }
        requires poller { IsPollers seat.old.me }
        requires sent { length (poll_of seat.old.me.0).later.sent ≡ number }
        requires handled { length (poll_of seat.old.me.0).later.handled ≡ number }
        ensures table { seat.new.table_id ≡ seat.old.table_id }
        ensures poller { IsPollers seat.new.me × (seat.new.me.0.workers ≡ seat.old.me.0.workers) }
        ensures read { IsNumbersOf (poll_of seat.old.me.0) (poll_of seat.new.me.0) result.sent result.handled }
    {
        let sent = self.read_sent(seat, number);
        let handled = self.read_handled(seat, number);
        Sums { sent, handled }
    }

    /// Reads the numbers of all workers in order.
    pub(crate) fn pass(&self, seat: &mut Place) -> Sums
        requires table { seat.old.table_id ≡ table_of self.now }
        requires poller { IsPollers seat.old.me }
        requires count { (poll_of seat.old.me.0).count ≡ crew_of self.now }
        ensures table { seat.new.table_id ≡ seat.old.table_id }
        ensures poller { IsPollers seat.new.me × (seat.new.me.0.workers ≡ seat.old.me.0.workers) }
        ensures pass { IsPassTo (crew_of self.now) (poll_of seat.old.me.0)
            (poll_of seat.new.me.0) result.sent result.handled }
    {
        let mut sums = self.read_first(seat);
        for number in 1..self.workers {
            let next = self.read_next(seat, number);
            sums.sent += next.sent;
            sums.handled += next.handled;
        }
        sums
    }
}
