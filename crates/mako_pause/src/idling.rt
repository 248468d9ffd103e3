//! The collector while no cycle runs.

ghost use Rattle.std.specs.Prelude.{◌≡◌, ◌<◌};
ghost use Rattle.mako_shape.specs.Places.{total};
ghost use Rattle.mako_step.specs.Acts.{IsWithin};
ghost use Rattle.mako_pause.specs.Collecting as collecting;
ghost use Rattle.mako_pause.specs.Collecting.{at};
ghost use Rattle.mako_pause.specs.Ranks as ranks;

use crate::kept::Kept;
use crate::stage::{CollectStage, IdleStage, Pause, PauseStage};
use mako_step::Step;
use mako_words::PhaseWord;

impl IdleStage {
    pub(crate) fn next(self, kept: &Kept) -> Step
        ensures next { result ≡ collecting.idle_next kept.now self }
        ensures within { IsWithin (total kept.now.shape) result }
    {
        let shape = kept.shape();
        match self {
            IdleStage::LoadingDemand => Step::load(shape.demand()),
            IdleStage::LookingFinished => Step::load(shape.finished()),
            IdleStage::StoringStop => {
                Step::store(shape.phase(), PhaseWord::Stop(kept.cycle()).pack())
            }
        }
    }

    /// Whether it is a look that does not find what it waits for.
    pub(crate) fn waits(self, kept: &Kept, before: u64) -> bool
        ensures { result ≡ ranks.idle_waits kept.now self before }
    {
        match self {
            IdleStage::LookingFinished => before != u64::from(kept.numbers().mutators),
            IdleStage::LoadingDemand | IdleStage::StoringStop => false,
        }
    }

    #[inline(always)]
    pub(crate) fn fed(self, kept: &Kept, before: u64) -> CollectStage
        ensures { at kept.now result ≡ collecting.idle_fed kept.now self before }
    {
        match self {
            IdleStage::LoadingDemand if before > u64::from(kept.cycle()) => {
                CollectStage::Pausing(PauseStage::Shutting(Pause::Snapshot, 0))
            }
            IdleStage::LoadingDemand => CollectStage::Idle(IdleStage::LookingFinished),
            IdleStage::LookingFinished if before == u64::from(kept.numbers().mutators) => {
                CollectStage::Idle(IdleStage::StoringStop)
            }
            IdleStage::LookingFinished => CollectStage::Idle(IdleStage::LoadingDemand),
            IdleStage::StoringStop => CollectStage::Ended,
        }
    }
}
