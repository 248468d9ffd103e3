//! The collector in a pause of the mutators.

ghost use Rattle.std.specs.Prelude.{◌≡◌, ◌<◌};
ghost use Rattle.mako_shape.specs.Places.{total};
ghost use Rattle.mako_step.specs.Acts.{IsWithin};
ghost use Rattle.mako_pause.specs.Collecting as collecting;
ghost use Rattle.mako_pause.specs.Collecting.{at, PauseFits};
ghost use Rattle.mako_pause.specs.Keeping.{Runs, PauseIsKnown};
ghost use Rattle.mako_words.specs.Values.{FitsValue, IsPacked, value_at};
ghost use Rattle.std.specs.Prelude.{nat_lt};
ghost use Rattle.mako_words.specs.Gates.{count_of};

use crate::kept::Kept;
use crate::stage::{CollectStage, Pause, PauseStage};
use mako_step::Step;
use mako_words::{GateWord, PhaseWord, Value};

/// Whether a gate with this word counts somebody.
fn counts_somebody(word: u64) -> bool
    ensures { result ≡ nat_lt 0 (count_of word) }
{
    word % GateWord::SHUT > 0
}

/// The value of a word that is a value's.
fn value_of(word: u64) -> Value
    requires { IsPacked word }
    ensures value { result ≡ value_at word }
    ensures fits { FitsValue result }
{
    match Value::unpack(word) {
        Some(value) => value,
        None => unreachable!(),
    }
}

impl PauseStage {
    pub(crate) fn next(self, kept: &Kept) -> Step
        requires runs { Runs kept.now }
        requires known { PauseIsKnown kept.now self }
        ensures next { result ≡ collecting.pause_next kept.now self }
        ensures within { IsWithin (total kept.now.shape) result }
    {
        let shape = kept.shape();
        match self {
            PauseStage::Shutting(_, mutator) => {
                Step::or(shape.mutator_gate(mutator), GateWord::SHUT)
            }
            PauseStage::Draining(_, mutator) => Step::load(shape.mutator_gate(mutator)),
            PauseStage::LoadingRoot { mutator, root } => Step::load(shape.root(mutator, root)),
            PauseStage::StoringTrace => {
                Step::store(shape.phase(), PhaseWord::Trace(kept.running()).pack())
            }
            PauseStage::Opening(mutator) => {
                Step::and(shape.mutator_gate(mutator), !GateWord::SHUT)
            }
        }
    }

    pub(crate) fn fed(self, kept: &mut Kept, before: u64) -> CollectStage
        requires known { PauseIsKnown kept.old self }
        requires fits { PauseFits kept.old self before }
        ensures { at kept.new result ≡ collecting.pause_fed kept.old self before }
    {
        let mutators = kept.numbers().mutators;
        match self {
            PauseStage::Shutting(pause, mutator) if mutator + 1 == mutators => {
                CollectStage::Pausing(PauseStage::Draining(pause, 0))
            }
            PauseStage::Shutting(pause, mutator) => {
                CollectStage::Pausing(PauseStage::Shutting(pause, mutator + 1))
            }
            PauseStage::Draining(..) if counts_somebody(before) => CollectStage::Pausing(self),
            PauseStage::Draining(pause, mutator) if mutator + 1 == mutators => kept.paused(pause),
            PauseStage::Draining(pause, mutator) => {
                CollectStage::Pausing(PauseStage::Draining(pause, mutator + 1))
            }
            PauseStage::LoadingRoot { mutator, root } => {
                kept.keep_root(value_of(before));
                CollectStage::Pausing(after_root(kept, mutator, root))
            }
            PauseStage::StoringTrace => CollectStage::Pausing(PauseStage::Opening(0)),
            PauseStage::Opening(mutator) if mutator + 1 == mutators => kept.forward(),
            PauseStage::Opening(mutator) => CollectStage::Pausing(PauseStage::Opening(mutator + 1)),
        }
    }
}

/// The root behind this one is loaded next, and past the last the snapshot is taken.
fn after_root(kept: &Kept, mutator: u32, root: u32) -> PauseStage
    requires mutator { mutator < kept.now.shape.mutators }
    requires root { root < kept.now.shape.roots }
    ensures { result ≡ collecting.after_root kept.now mutator root }
{
    let numbers = kept.numbers();
    if root + 1 < numbers.roots {
        return PauseStage::LoadingRoot {
            mutator,
            root: root + 1,
        };
    }
    if mutator + 1 < numbers.mutators {
        return PauseStage::LoadingRoot {
            mutator: mutator + 1,
            root: 0,
        };
    }
    PauseStage::StoringTrace
}
