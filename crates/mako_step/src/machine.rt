//! What a machine is.

ghost use Rattle.std.specs.Prelude.{◌≡◌, ℕ, Bool, false};
ghost use Rattle.mako_step.specs.Machines.{IsAct, Lowers};
ghost use Rattle.mako_step.specs.declared.step.Step.{Step};

use crate::step::Step;

/// A machine that makes one act at a time, and is a function of the words that its acts find.
///
/// A machine works on a job at a time, and its rank is the most steps that the job still takes. Each
/// step lowers it, but for a look that does not find the word that it waits for.
pub trait Machine {
    /// What a step tells whoever keeps the history.
    type Event;

    // what it does next
    ghost next_of: { Self → Step };

    // the word found is one that the machine can go on with
    ghost Fits: { Self → ℕ → Type 0 };

    // the machine after that word
    ghost fed: { Self → ℕ → Self };

    // what the step tells
    ghost event_of: { Self → ℕ → Self.Event };

    // whether the step is a look that does not find what it waits for
    ghost is_waiting: { Self → ℕ → Bool };

    // whether the step ends a job, so that another begins
    ghost is_renewed: { Self → ℕ → Bool };

    ghost rank: { Self → ℕ };

    /// What it does next.
    fn next(&self) -> Step
        ensures { result ≡ next_of self.now };

    /// Whether the next act is a look that waits for another word than this one, so that it has to be made again.
    fn waits(&self, before: u64) -> bool
        ensures { result ≡ is_waiting self.now before };

    /// Goes on with the word that the act found.
    fn feed(&mut self, before: u64) -> Self::Event
        requires acts { IsAct (next_of self.old) }
        requires fits { Fits self.old before }
        ensures fed { self.new ≡ fed self.old before }
        ensures event { result ≡ event_of self.old before }
        ensures rank { is_waiting self.old before ≡ false
            → Lowers (is_renewed self.old before) (rank self.old) (rank self.new) };
}
