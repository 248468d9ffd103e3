//! The collector while it takes names from the barrier rings.

ghost use Rattle.std.specs.Prelude.{◌≡◌, ◌<◌};
ghost use Rattle.mako_shape.specs.Places.{total};
ghost use Rattle.mako_step.specs.Acts.{IsWithin};
ghost use Rattle.mako_pause.specs.Collecting as collecting;
ghost use Rattle.mako_pause.specs.Collecting.{at, BarrierFits};
ghost use Rattle.mako_pause.specs.Keeping.{BarrierIsKnown};
ghost use Rattle.mako_words.specs.Names.{IsPackedName, name_at};

use crate::kept::Kept;
use crate::stage::{BarrierStage, CollectStage, ForwardStage};
use mako_step::Step;
use mako_words::{Name, Value};

/// The name of a word that is a name's.
fn name_of(word: u64) -> Name
    requires { IsPackedName word }
    ensures { result ≡ name_at word }
{
    match Value::unpack(word) {
        Some(Value::Ref(name)) => name,
        _ => unreachable!(),
    }
}

impl BarrierStage {
    pub(crate) fn next(self, kept: &Kept) -> Step
        requires { BarrierIsKnown kept.now self }
        ensures next { result ≡ collecting.barrier_next kept.now self }
        ensures within { IsWithin (total kept.now.shape) result }
    {
        let shape = kept.shape();
        match self {
            BarrierStage::Loading(mutator) => {
                Step::load(shape.barrier(mutator, kept.barrier_at(mutator)))
            }
            BarrierStage::Clearing(mutator, _) => {
                Step::store(shape.barrier(mutator, kept.barrier_at(mutator)), 0)
            }
        }
    }

    pub(crate) fn fed(self, kept: &mut Kept, before: u64) -> CollectStage
        requires known { BarrierIsKnown kept.old self }
        requires fits { BarrierFits kept.old self before }
        ensures { at kept.new result ≡ collecting.barrier_fed kept.old self before }
    {
        match self {
            BarrierStage::Loading(mutator) if before == 0 => kept.barriers_after(mutator),
            BarrierStage::Loading(mutator) => {
                CollectStage::Barriers(BarrierStage::Clearing(mutator, name_of(before)))
            }
            BarrierStage::Clearing(mutator, name) => {
                kept.barrier_up(mutator);
                CollectStage::Forwarding(ForwardStage::Looking(name))
            }
        }
    }
}
