//! Departure from a gate.

ghost use Rattle.std.specs.Prelude.{◌≡◌, false};

use mako_step::{Machine, Step};
use std::marker::Model;

/// Where a departure stands.
#[derive(Clone, Copy)]
pub enum LeaveStage {
    /// Next it subtracts 1 from the gate's word.
    Leaving,
    Ended,
}

/// Leaves a gate: subtracts 1 from its word.
#[derive(Drop)]
pub struct Leave {
    word: u32,
    stage: LeaveStage,
}

impl Model for Leave {
    ghost use Rattle.mako_gate.specs.Leaving.{Departure};

    ghost Value = { Departure };

    ghost view = { λ l. record { word = l.word; stage = l.stage } };
}

impl Leave {
    ghost use Rattle.mako_step.specs.declared.step.Step.TheVariants.{Ended};
    ghost use Rattle.mako_gate.specs.Leaving.{next_of};
    ghost use Rattle.mako_gate.specs.declared.leave.LeaveStage.TheVariants as stages;

    /// A departure from the gate with this word, by its index among all words.
    pub fn new(word: u32) -> Leave
        ensures { result ≡ record { word = word; stage = stages.Leaving } }
    {
        Leave {
            word,
            stage: LeaveStage::Leaving,
        }
    }

    /// The departure is made.
    pub fn result(&self)
        requires { next_of self.now ≡ Ended }
        ensures { self.now.stage ≡ stages.Ended }
    {}
}

impl Machine for Leave {
    type Event = ();

    ghost use Rattle.mako_gate.specs.Leaving as leaving;

    ghost next_of = { leaving.next_of };

    ghost Fits = { leaving.Fits };

    ghost fed = { leaving.fed };

    ghost event_of = { λ _ _. tt };

    ghost is_waiting = { λ _ _. false };

    ghost is_renewed = { λ _ _. false };

    ghost rank = { leaving.rank };

    fn next(&self) -> Step {
        match self.stage {
            LeaveStage::Leaving => Step::sub(self.word, 1),
            LeaveStage::Ended => Step::Ended,
        }
    }

    fn waits(&self, _before: u64) -> bool {
        false
    }

    fn feed(&mut self, _before: u64) {
        self.stage = LeaveStage::Ended;
    }
}
