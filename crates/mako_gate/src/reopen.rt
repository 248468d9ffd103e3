//! Reopening of a gate.

ghost use Rattle.std.specs.Prelude.{◌≡◌, false};

use mako_step::{Machine, Step};
use mako_words::GateWord;
use std::marker::Model;

/// Where a reopening stands.
#[derive(Clone, Copy)]
pub enum ReopenStage {
    /// Next it clears the shut bit of the gate's word.
    Clearing,
    Ended,
}

/// Reopens a gate: clears the shut bit of its word, and leaves its count.
#[derive(Drop)]
pub struct Reopen {
    word: u32,
    stage: ReopenStage,
}

impl Model for Reopen {
    ghost use Rattle.mako_gate.specs.Reopening.{Reopening};

    ghost Value = { Reopening };

    ghost view = { λ r. record { word = r.word; stage = r.stage } };
}

impl Reopen {
    ghost use Rattle.mako_step.specs.declared.step.Step.TheVariants.{Ended};
    ghost use Rattle.mako_gate.specs.Reopening.{next_of};
    ghost use Rattle.mako_gate.specs.declared.reopen.ReopenStage.TheVariants as stages;

    /// A reopening of the gate with this word, by its index among all words.
    pub fn new(word: u32) -> Reopen
        ensures { result ≡ record { word = word; stage = stages.Clearing } }
    {
        Reopen {
            word,
            stage: ReopenStage::Clearing,
        }
    }

    /// The reopening is made.
    pub fn result(&self)
        requires { next_of self.now ≡ Ended }
        ensures { self.now.stage ≡ stages.Ended }
    {}
}

impl Machine for Reopen {
    type Event = ();

    ghost use Rattle.mako_gate.specs.Reopening as reopening;

    ghost next_of = { reopening.next_of };

    ghost Fits = { reopening.Fits };

    ghost fed = { reopening.fed };

    ghost event_of = { λ _ _. tt };

    ghost is_waiting = { λ _ _. false };

    ghost is_renewed = { λ _ _. false };

    ghost rank = { reopening.rank };

    fn next(&self) -> Step {
        match self.stage {
            ReopenStage::Clearing => Step::and(self.word, !GateWord::SHUT),
            ReopenStage::Ended => Step::Ended,
        }
    }

    fn waits(&self, _before: u64) -> bool {
        false
    }

    fn feed(&mut self, _before: u64) {
        self.stage = ReopenStage::Ended;
    }
}
