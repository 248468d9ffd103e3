//! Shutting of a gate.

ghost use Rattle.std.specs.Prelude.{◌≡◌, false};
ghost use Rattle.mako_gate.specs.Shutting.{is_counting};

use mako_step::{Machine, Step};
use mako_words::GateWord;
use std::marker::Model;

/// Where a shutting stands.
#[derive(Clone, Copy)]
pub enum ShutStage {
    /// Next it sets the shut bit of the gate's word.
    Shutting,
    /// It looks whether the gate counts nobody.
    Looking,
    Ended,
}

/// Shuts a gate: sets the shut bit of its word, and looks until the count is 0.
#[derive(Drop)]
pub struct Shutter {
    word: u32,
    stage: ShutStage,
}

impl Model for Shutter {
    ghost use Rattle.mako_gate.specs.Shutting.{Shutdown};

    ghost Value = { Shutdown };

    ghost view = { λ s. record { word = s.word; stage = s.stage } };
}

/// Whether a gate with this word counts somebody.
fn counts_somebody(word: u64) -> bool
    ensures { result ≡ is_counting word }
{
    word % GateWord::SHUT > 0
}

impl Shutter {
    ghost use Rattle.mako_step.specs.declared.step.Step.TheVariants.{Ended};
    ghost use Rattle.mako_gate.specs.Shutting.{next_of};
    ghost use Rattle.mako_gate.specs.declared.shutter.ShutStage.TheVariants as stages;

    /// A shutting of the gate with this word, by its index among all words.
    pub fn new(word: u32) -> Shutter
        ensures { result ≡ record { word = word; stage = stages.Shutting } }
    {
        Shutter {
            word,
            stage: ShutStage::Shutting,
        }
    }

    /// The gate is shut, and a look found that it counts nobody.
    pub fn result(&self)
        requires { next_of self.now ≡ Ended }
        ensures { self.now.stage ≡ stages.Ended }
    {}
}

impl Machine for Shutter {
    type Event = ();

    ghost use Rattle.mako_gate.specs.Shutting as shutting;

    ghost next_of = { shutting.next_of };

    ghost Fits = { shutting.Fits };

    ghost fed = { shutting.fed };

    ghost event_of = { λ _ _. tt };

    ghost is_waiting = { shutting.is_waiting };

    ghost is_renewed = { λ _ _. false };

    ghost rank = { shutting.rank };

    fn next(&self) -> Step {
        match self.stage {
            ShutStage::Shutting => Step::or(self.word, GateWord::SHUT),
            ShutStage::Looking => Step::load(self.word),
            ShutStage::Ended => Step::Ended,
        }
    }

    fn waits(&self, before: u64) -> bool {
        match self.stage {
            ShutStage::Looking => counts_somebody(before),
            ShutStage::Shutting | ShutStage::Ended => false,
        }
    }

    fn feed(&mut self, before: u64) {
        self.stage = match self.stage {
            ShutStage::Looking if counts_somebody(before) => ShutStage::Looking,
            ShutStage::Shutting => ShutStage::Looking,
            ShutStage::Looking | ShutStage::Ended => ShutStage::Ended,
        };
    }
}
