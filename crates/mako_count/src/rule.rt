//! The counting rule, and what each kind of step tells.

ghost use Rattle.std.specs.Prelude.{◌^◌, ◌<◌};
ghost use Rattle.mako_count.specs.Views.{worker_of, poll_of, first_of, rest_of, met_with, spent, IsSeatOf};
ghost use Rattle.mako_count.specs.Views.{IsPollersSeat};
ghost use Rattle.mako_count.specs.Changes.{begun, filling, grasped, handled_read, looking, raised, rested, sent_read};
ghost use Rattle.mako_count.specs.Counting.{CountingHolds, opening_view};
ghost use Rattle.mako_count.specs.Meetings.{MeetsAt};

use crate::setup::Setup;
use crate::views::View;
use atomic_table::{Join, Play, Seat, Shared, Split, TableRule};

/// The rule that every step of every thread keeps on the words of a count.
pub struct CountingRule;

impl TableRule<(), View, Setup> for CountingRule {
    ghost holds = { CountingHolds };

    ghost first = { opening_view };
}

/// The words of a count, which all threads share.
pub type Words = Shared<(), View, Setup, CountingRule>;

/// A seat at these words, with what it knows.
pub type Place = Seat<(), View>;

/// A worker's sent word rises.
pub struct RaisesSent;

impl Play<(), View> for RaisesSent {
    ghost then = { λ step me n after. IsSeatOf (raised (worker_of me.0)) after };
}

/// The box of the piece that is on its way rises.
pub struct FillsBox;

impl Play<(), View> for FillsBox {
    ghost then = { λ step me n after. IsSeatOf (filling step.word (worker_of me.0)) after };
}

/// A worker looks at its box.
pub struct LooksAtBox;

impl Play<(), View> for LooksAtBox {
    ghost then = { λ step me n after. IsSeatOf (looking n (worker_of me.0)) after };
}

/// A worker takes the piece that it saw.
pub struct TakesFromBox;

impl Play<(), View> for TakesFromBox {
    ghost then = { λ step me n after. IsSeatOf (grasped (worker_of me.0)) after };
}

/// A worker's handled word rises.
pub struct RaisesHandled;

impl Play<(), View> for RaisesHandled {
    ghost then = { λ step me n after. IsSeatOf (rested (worker_of me.0)) after };
}

/// The poller reads the first worker's sent word, with which a pass begins.
pub struct BeginsPass;

impl Play<(), View> for BeginsPass {
    ghost then = { λ step me n after. IsPollersSeat me.0.workers (begun n (poll_of me.0)) after × (n < 2 ^ 40) };
}

/// The poller reads the next worker's sent word.
pub struct ReadsSent;

impl Play<(), View> for ReadsSent {
    ghost then = { λ step me n after. IsPollersSeat me.0.workers (sent_read n (poll_of me.0)) after × (n < 2 ^ 40) };
}

/// The poller reads the next worker's handled word.
pub struct ReadsHandled;

impl Play<(), View> for ReadsHandled {
    ghost then = { λ step me n after. IsPollersSeat me.0.workers (handled_read n (poll_of me.0)) after × (n < 2 ^ 40) };
}

/// The first worker gets a seat of its own.
pub struct Deals;

impl Split<View> for Deals {
    ghost left = { rest_of };

    ghost right = { first_of };
}

/// A worker's seat is taken in.
pub struct TakesIn;

impl Join<View> for TakesIn {
    ghost both = { met_with };

    ghost spent = { spent };
}

/// What the poller knows of the workers that it has met is looked at.
pub struct Meets;

impl Play<(), View> for Meets {
    ghost then = { λ step me n after. MeetsAt me after };
}
