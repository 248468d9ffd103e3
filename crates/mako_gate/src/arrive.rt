//! Arrival at a gate.

ghost use Rattle.std.specs.Prelude.{◌≡◌, false};

use mako_step::{Machine, Step};
use mako_words::GateWord;
use std::marker::Model;

/// What an arrival comes to.
#[derive(Clone, Copy, Debug, PartialEq, Eq)]
pub enum Arrived {
    /// The gate was open, and counts the arrival until it is taken back by a `Leave`.
    Inside,
    /// The gate was shut when the arrival found this word, and the arrival has been taken back.
    Refused(u64),
}

/// Where an arrival stands.
#[derive(Clone, Copy)]
pub enum ArriveStage {
    /// Next it adds 1 to the gate's word.
    Arriving,
    /// It found this word, with the shut bit, and takes its arrival back.
    TakingBack(u64),
    Ended(Arrived),
}

/// Arrives at a gate: adds 1 to its word, and takes this back where the word had the shut bit.
#[derive(Drop)]
pub struct Arrive {
    word: u32,
    stage: ArriveStage,
}

impl Model for Arrive {
    ghost use Rattle.mako_gate.specs.Arriving.{Arrival};

    ghost Value = { Arrival };

    ghost view = { λ a. record { word = a.word; stage = a.stage } };
}

impl Arrive {
    ghost use Rattle.mako_step.specs.declared.step.Step.TheVariants.{Ended};
    ghost use Rattle.mako_gate.specs.Arriving.{next_of};
    ghost use Rattle.mako_gate.specs.declared.arrive.ArriveStage.TheVariants as stages;

    /// An arrival at the gate with this word, by its index among all words.
    pub fn new(word: u32) -> Arrive
        ensures { result ≡ record { word = word; stage = stages.Arriving } }
    {
        Arrive {
            word,
            stage: ArriveStage::Arriving,
        }
    }

    /// What the arrival came to.
    pub fn result(&self) -> Arrived
        requires { next_of self.now ≡ Ended }
        ensures { self.now.stage ≡ stages.Ended result }
    {
        match self.stage {
            ArriveStage::Ended(arrived) => arrived,
            _ => unreachable!(),
        }
    }
}

impl Machine for Arrive {
    type Event = ();

    ghost use Rattle.mako_gate.specs.Arriving as arriving;

    ghost next_of = { arriving.next_of };

    ghost Fits = { arriving.Fits };

    ghost fed = { arriving.fed };

    ghost event_of = { λ _ _. tt };

    ghost is_waiting = { λ _ _. false };

    ghost is_renewed = { λ _ _. false };

    ghost rank = { arriving.rank };

    fn next(&self) -> Step {
        match self.stage {
            ArriveStage::Arriving => Step::add(self.word, 1),
            ArriveStage::TakingBack(_) => Step::sub(self.word, 1),
            ArriveStage::Ended(_) => Step::Ended,
        }
    }

    fn waits(&self, _before: u64) -> bool {
        false
    }

    fn feed(&mut self, before: u64) {
        self.stage = match self.stage {
            ArriveStage::Arriving if before >= GateWord::SHUT => ArriveStage::TakingBack(before),
            ArriveStage::Arriving => ArriveStage::Ended(Arrived::Inside),
            ArriveStage::TakingBack(found) => ArriveStage::Ended(Arrived::Refused(found)),
            ArriveStage::Ended(arrived) => ArriveStage::Ended(arrived),
        };
    }
}
