//! The kinds of step, each one operation on one word.

ghost use Rattle.std.specs.Prelude.{◌≡◌, ◌+◌, ◌*◌, ◌^◌, ◌<◌, length, []};
ghost use Rattle.mako_count.specs.Views.{worker_of, poll_of, first_of, rest_of, met_with, IsSeatOf, IsWorkers};
ghost use Rattle.mako_count.specs.Views.{IsPollers, IsPollersSeat};
ghost use Rattle.mako_count.specs.Changes.{begun, filling, grasped, handled_read, looking, raised, rested, sent_read};
ghost use Rattle.mako_count.specs.Meetings.{MeetingTells};
ghost use Rattle.mako_count.specs.Tables.{table_of, crew_of};
ghost use Rattle.mako_count.specs.declared.views.Hand.TheVariants.{Free, Reaching, Holding, Sending};

use crate::count::Count;
use crate::rule::{
    BeginsPass, Deals, FillsBox, LooksAtBox, Meets, Place, RaisesHandled, RaisesSent, ReadsHandled,
    ReadsSent, TakesFromBox, TakesIn,
};

impl Count {
    /// The worker's sent word rises by one.
    pub(crate) fn raise_sent(&self, seat: &mut Place, number: usize)
        requires table { (seat.old.table_id ≡ table_of self.now) × (number < crew_of self.now) }
        requires worker { IsWorkers seat.old.me number Holding }
        requires room { (worker_of seat.old.me.0).seeds + (worker_of seat.old.me.0).sends + 1 < 2 ^ 33 }
        ensures table { seat.new.table_id ≡ seat.old.table_id }
        ensures raised { IsSeatOf (raised (worker_of seat.old.me.0)) seat.new.me }
    {
        self.table.shared.fetch_add::<RaisesSent>(seat, number, 1);
    }

    /// The box of worker `to` rises by one.
    pub(crate) fn fill_box(&self, seat: &mut Place, to: usize)
        requires table { (seat.old.table_id ≡ table_of self.now) × (to < crew_of self.now) }
        requires worker { IsWorkers seat.old.me (worker_of seat.old.me.0).number Sending }
        ensures table { seat.new.table_id ≡ seat.old.table_id }
        ensures filled { IsSeatOf (filling (2 * crew_of self.now + to) (worker_of seat.old.me.0)) seat.new.me }
    {
        let word = 2 * self.workers + to;
        self.table.shared.fetch_add::<FillsBox>(seat, word, 1);
    }

    /// The worker looks at its box.
    pub(crate) fn look_at_box(&self, seat: &mut Place, number: usize) -> u64
        requires table { (seat.old.table_id ≡ table_of self.now) × (number < crew_of self.now) }
        requires worker { IsWorkers seat.old.me number Free }
        ensures table { seat.new.table_id ≡ seat.old.table_id }
        ensures looked { IsSeatOf (looking result (worker_of seat.old.me.0)) seat.new.me }
    {
        let word = 2 * self.workers + number;
        self.table.shared.load::<LooksAtBox>(seat, word)
    }

    /// The worker's box falls by one.
    pub(crate) fn take_from_box(&self, seat: &mut Place, number: usize)
        requires table { (seat.old.table_id ≡ table_of self.now) × (number < crew_of self.now) }
        requires worker { IsWorkers seat.old.me number Reaching }
        ensures table { seat.new.table_id ≡ seat.old.table_id }
        ensures taken { IsSeatOf (grasped (worker_of seat.old.me.0)) seat.new.me }
    {
        let word = 2 * self.workers + number;
        self.table.shared.fetch_sub::<TakesFromBox>(seat, word, 1);
    }

    /// The worker's handled word rises by one.
    pub(crate) fn raise_handled(&self, seat: &mut Place, number: usize)
        requires table { (seat.old.table_id ≡ table_of self.now) × (number < crew_of self.now) }
        requires worker { IsWorkers seat.old.me number Holding }
        ensures table { seat.new.table_id ≡ seat.old.table_id }
        ensures rested { IsSeatOf (rested (worker_of seat.old.me.0)) seat.new.me }
    {
        let word = self.workers + number;
        self.table.shared.fetch_add::<RaisesHandled>(seat, word, 1);
    }

    /// The poller reads the first worker's sent word, with which a pass begins.
    pub(crate) fn begin_pass(&self, seat: &mut Place) -> u64
        requires table { seat.old.table_id ≡ table_of self.now }
        requires poller { IsPollers seat.old.me }
        ensures table { seat.new.table_id ≡ seat.old.table_id }
        ensures read { IsPollersSeat seat.old.me.0.workers (begun result (poll_of seat.old.me.0)) seat.new.me
            × (result < 2 ^ 40) }
    {
        self.table.shared.load::<BeginsPass>(seat, 0)
    }

    /// The poller reads the next worker's sent word.
    pub(crate) fn read_sent(&self, seat: &mut Place, number: usize) -> u64
        requires table { (seat.old.table_id ≡ table_of self.now) × (number < crew_of self.now) }
        requires poller { IsPollers seat.old.me }
        requires next { length (poll_of seat.old.me.0).later.sent ≡ number }
        ensures table { seat.new.table_id ≡ seat.old.table_id }
        ensures read { IsPollersSeat seat.old.me.0.workers (sent_read result (poll_of seat.old.me.0)) seat.new.me
            × (result < 2 ^ 40) }
    {
        self.table.shared.load::<ReadsSent>(seat, number)
    }

    /// The poller reads the next worker's handled word.
    pub(crate) fn read_handled(&self, seat: &mut Place, number: usize) -> u64
        requires table { (seat.old.table_id ≡ table_of self.now) × (number < crew_of self.now) }
        requires poller { IsPollers seat.old.me }
        requires next { length (poll_of seat.old.me.0).later.handled ≡ number }
        ensures table { seat.new.table_id ≡ seat.old.table_id }
        ensures read { IsPollersSeat seat.old.me.0.workers (handled_read result (poll_of seat.old.me.0)) seat.new.me
            × (result < 2 ^ 40) }
    {
        let word = self.workers + number;
        self.table.shared.load::<ReadsHandled>(seat, word)
    }

    /// The first of the workers that have no seat of their own gets one.
    pub(crate) fn deal(&self, seat: &mut Place) -> Place
        requires table { seat.old.table_id ≡ table_of self.now }
        requires poller { IsPollers seat.old.me }
        requires more { 0 < length seat.old.me.0.workers }
        ensures table { (seat.new.table_id ≡ seat.old.table_id) × (result.table_id ≡ seat.old.table_id) }
        ensures rest { seat.new.me ≡ (rest_of seat.old.me.0, []) }
        ensures first { result.me ≡ (first_of seat.old.me.0, []) }
    {
        self.table.shared.split_seat::<Deals>(seat)
    }

    /// The poller takes in the worker's seat, and looks at what it knows then.
    pub(crate) fn take_in(&self, seat: &mut Place, other: Place)
        requires table { (seat.old.table_id ≡ table_of self.now) × (other.table_id ≡ table_of self.now) }
        requires poller { IsPollers seat.old.me }
        requires worker { IsSeatOf (worker_of other.me.0) other.me }
        ensures table { seat.new.table_id ≡ seat.old.table_id }
        ensures met { seat.new.me ≡ (met_with seat.old.me.0 other.me.0, []) }
        ensures tells { MeetingTells (poll_of seat.new.me.0).count seat.new.me.0.workers (poll_of seat.new.me.0) }
    {
        self.table.shared.join_seat::<TakesIn>(seat, other);
        self.table.shared.load::<Meets>(seat, 0);
    }
}
