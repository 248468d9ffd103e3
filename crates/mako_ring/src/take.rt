//! A take out of a ring.

ghost use Rattle.std.specs.Prelude.{◌≡◌, ◌<◌, false};
ghost use Rattle.mako_shape.specs.Places.{total};
ghost use Rattle.mako_step.specs.Acts.{IsWithin};

use crate::ring::Ring;
use mako_shape::Shape;
use mako_step::{Machine, Step};
use mako_words::FlagWord;
use std::marker::Model;

/// What a take comes to.
#[derive(Clone, Copy, Debug, PartialEq, Eq)]
pub enum Taking {
    /// The slot held this word, and is empty now. The taker's position rises by one.
    Got(u64),
    /// The slot was empty, and nothing changed.
    Empty,
}

/// Where a take stands.
#[derive(Clone, Copy)]
pub enum TakeStage {
    /// Next it loads the slot at the position.
    Looking,
    /// The slot holds the word, and this server, the taker, raises its flags busy and changed.
    Raising { server: u32, word: u64 },
    /// The slot holds this word, and it stores 0.
    Clearing(u64),
    Ended(Taking),
}

/// Takes a word out of a ring, at the taker's position: a look, and a store of 0 where the slot is
/// filled. Between both a server raises its flags busy and changed.
#[derive(Drop)]
pub struct Take {
    shape: Shape,
    ring: Ring,
    at: u64,
    stage: TakeStage,
}

impl Model for Take {
    ghost use Rattle.mako_ring.specs.Takes.{TakeView, IsKnown};

    ghost Value = { TakeView };

    ghost view = { λ t. record { shape = t.shape; ring = t.ring; at = t.at; stage = t.stage } };

    ghost invariant = { λ t. IsKnown t.shape t.ring t.at t.stage };
}

impl Take {
    ghost use Rattle.mako_step.specs.declared.step.Step.TheVariants.{Ended};
    ghost use Rattle.mako_ring.specs.Takes.{next_of};
    ghost use Rattle.mako_ring.specs.Rings.{IsRing};
    ghost use Rattle.mako_ring.specs.declared.take.TakeStage.TheVariants as stages;

    /// A take out of the ring, at its taker's position: the number of a slot.
    pub fn new(shape: Shape, ring: Ring, at: u64) -> Take
        requires ring { IsRing shape ring }
        requires position { at < shape.ring }
        ensures { result ≡ record { shape = shape; ring = ring; at = at; stage = stages.Looking } }
    {
        Take {
            shape,
            ring,
            at,
            stage: TakeStage::Looking,
        }
    }

    /// What the take came to.
    pub fn result(&self) -> Taking
        requires { next_of self.now ≡ Ended }
        ensures { self.now.stage ≡ stages.Ended result }
    {
        match self.stage {
            TakeStage::Ended(taking) => taking,
            _ => unreachable!(),
        }
    }
}

impl Machine for Take {
    type Event = ();

    ghost use Rattle.mako_ring.specs.Takes as takes;

    ghost next_of = { takes.next_of };

    ghost Fits = { takes.Fits };

    ghost fed = { takes.fed };

    ghost event_of = { λ _ _. tt };

    ghost is_waiting = { λ _ _. false };

    ghost is_renewed = { λ _ _. false };

    ghost rank = { takes.rank };

    fn next(&self) -> Step
        ensures next { result ≡ takes.next_of self.now }
        ensures within { IsWithin (total self.now.shape) result }
    {
        let _numbers = self.shape.numbers();
        match self.stage {
            TakeStage::Looking => Step::load(self.ring.slot(&self.shape, self.at as u32)),
            TakeStage::Raising { server, .. } => {
                Step::or(self.shape.flags(server), FlagWord::BUSY + FlagWord::CHANGED)
            }
            TakeStage::Clearing(_) => Step::store(self.ring.slot(&self.shape, self.at as u32), 0),
            TakeStage::Ended(_) => Step::Ended,
        }
    }

    fn waits(&self, _before: u64) -> bool {
        false
    }

    fn feed(&mut self, before: u64) {
        self.stage = match self.stage {
            TakeStage::Looking if before == 0 => TakeStage::Ended(Taking::Empty),
            TakeStage::Looking => match self.ring {
                Ring::Work(server) => TakeStage::Raising {
                    server,
                    word: before,
                },
                Ring::Ghost { receiver, .. } => TakeStage::Raising {
                    server: receiver,
                    word: before,
                },
                Ring::Barrier(_) | Ring::Notice(_) => TakeStage::Clearing(before),
            },
            TakeStage::Raising { word, .. } => TakeStage::Clearing(word),
            TakeStage::Clearing(word) => TakeStage::Ended(Taking::Got(word)),
            TakeStage::Ended(taking) => TakeStage::Ended(taking),
        };
    }
}
