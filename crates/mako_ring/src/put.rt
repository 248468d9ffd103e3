//! A put into a ring.

ghost use Rattle.std.specs.Prelude.{◌≡◌, ◌≢◌, false};
ghost use Rattle.mako_shape.specs.Places.{total};
ghost use Rattle.mako_step.specs.Acts.{IsWithin};

use crate::ring::Ring;
use crate::window::Window;
use mako_shape::Shape;
use mako_step::{Machine, Step};
use mako_words::FlagWord;
use std::marker::Model;

/// What a put comes to.
#[derive(Clone, Copy, Debug, PartialEq, Eq)]
pub enum Putting {
    /// The word was stored, and this is the window after it.
    Stored(Window),
    /// The slot held this word, and nothing changed.
    Occupied(u64),
}

/// Where a put stands.
#[derive(Clone, Copy)]
pub enum PutStage {
    /// Next it loads the slot at the window's head.
    Looking,
    /// The slot is empty, and this server, the sender, raises its flags ghost and changed.
    Raising(u32),
    /// The slot is empty, and it stores the word.
    Storing,
    Ended(Putting),
}

/// Puts a word into a ring, at the head of the putter's window: a look, and a store where the slot is
/// empty. Between both a server that puts into a ring to another raises its flags ghost and changed.
#[derive(Drop)]
pub struct Put {
    shape: Shape,
    ring: Ring,
    window: Window,
    word: u64,
    stage: PutStage,
}

impl Model for Put {
    ghost use Rattle.mako_ring.specs.Puts.{PutView, IsKnown};

    ghost Value = { PutView };

    ghost view = { λ p. record { shape = p.shape; ring = p.ring; window = p.window; word = p.word; stage = p.stage } };

    ghost invariant = { λ p. IsKnown p.shape p.ring p.window p.stage };
}

impl Put {
    ghost use Rattle.mako_step.specs.declared.step.Step.TheVariants.{Ended};
    ghost use Rattle.mako_ring.specs.Puts.{next_of};
    ghost use Rattle.mako_ring.specs.Rings.{IsRing};
    ghost use Rattle.mako_ring.specs.Windows.{IsWindow};
    ghost use Rattle.mako_ring.specs.declared.put.PutStage.TheVariants as stages;

    /// A put of this word, which is not 0, into the ring, at the head of its putter's window.
    pub fn new(shape: Shape, ring: Ring, window: Window, word: u64) -> Put
        requires ring { IsRing shape ring }
        requires window { IsWindow shape.ring window }
        requires word { word ≢ 0 }
        ensures { result ≡ record { shape = shape; ring = ring; window = window; word = word; stage = stages.Looking } }
    {
        Put {
            shape,
            ring,
            window,
            word,
            stage: PutStage::Looking,
        }
    }

    /// What the put came to.
    pub fn result(&self) -> Putting
        requires { next_of self.now ≡ Ended }
        ensures { self.now.stage ≡ stages.Ended result }
    {
        match self.stage {
            PutStage::Ended(putting) => putting,
            _ => unreachable!(),
        }
    }
}

impl Machine for Put {
    type Event = ();

    ghost use Rattle.mako_ring.specs.Puts as puts;

    ghost next_of = { puts.next_of };

    ghost Fits = { puts.Fits };

    ghost fed = { puts.fed };

    ghost event_of = { λ _ _. tt };

    ghost is_waiting = { λ _ _. false };

    ghost is_renewed = { λ _ _. false };

    ghost rank = { puts.rank };

    fn next(&self) -> Step
        ensures next { result ≡ puts.next_of self.now }
        ensures within { IsWithin (total self.now.shape) result }
    {
        let size = self.shape.numbers().ring as u64;
        let place = (self.window.head % size) as u32;
        match self.stage {
            PutStage::Looking => Step::load(self.ring.slot(&self.shape, place)),
            PutStage::Raising(server) => {
                Step::or(
                    self.shape.flags(server),
                    FlagWord::GHOST + FlagWord::CHANGED,
                )
            }
            PutStage::Storing => Step::store(self.ring.slot(&self.shape, place), self.word),
            PutStage::Ended(_) => Step::Ended,
        }
    }

    fn waits(&self, _before: u64) -> bool {
        false
    }

    fn feed(&mut self, before: u64) {
        let size = self.shape.numbers().ring as u64;
        self.stage = match self.stage {
            PutStage::Looking if before != 0 => PutStage::Ended(Putting::Occupied(before)),
            PutStage::Looking => match self.ring {
                Ring::Ghost { sender, .. } => PutStage::Raising(sender),
                _ => PutStage::Storing,
            },
            PutStage::Raising(_) => PutStage::Storing,
            PutStage::Storing => {
                let window = self.window.found_room(size).head_up(size);
                PutStage::Ended(Putting::Stored(window))
            }
            PutStage::Ended(putting) => PutStage::Ended(putting),
        };
    }
}
