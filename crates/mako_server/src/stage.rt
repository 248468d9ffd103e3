//! Where a server stands.

ghost use Rattle.std.specs.Prelude.{◌≡◌, ◌<◌, ◌^◌};
ghost use Rattle.mako_shape.specs.Places.{total};
ghost use Rattle.mako_step.specs.Acts.{IsWithin};
ghost use Rattle.mako_step.specs.Machines.{IsAct};
ghost use Rattle.mako_words.specs.Phases.{phase_at};

use crate::kept::Kept;
use mako_evac::Evacuator;
use mako_step::{Machine, Step};

/// Where a server stands.
#[derive(Drop)]
pub enum ServerStage {
    /// Next it loads the phase.
    Turning,
    /// A turn of its tracing.
    Tracing,
    /// It evacuates its tablets, and frees its dead entries.
    Evacuating(Evacuator),
    Ended,
}

impl ServerStage {
    ghost use Rattle.mako_ring.specs.Tracing as tracing;
    ghost use Rattle.mako_step.specs.declared.step.Step.TheVariants as steps;
    ghost use Rattle.mako_server.specs.declared.stage.ServerStage.TheVariants as stages;
    ghost use Rattle.mako_server.specs.Serving as serving;
    ghost use Rattle.mako_server.specs.Serving.{StageIsKnown, StageFits};
    ghost use Rattle.mako_server.specs.Kept.{serving_in, IsKept};

    pub(crate) fn next(&self, kept: &Kept) -> Step
        requires { StageIsKnown kept.now.tracer self.now }
        ensures next { result ≡ serving.stage_next kept.now.tracer self.now }
        ensures within { IsWithin (total kept.now.tracer.shape) result }
    {
        match self {
            ServerStage::Turning => Step::load(kept.tracer.shape().phase()),
            ServerStage::Tracing => kept.tracer.next(),
            ServerStage::Evacuating(evacuator) => evacuator.next(),
            ServerStage::Ended => Step::Ended,
        }
    }

    /// Whether it is a look that does not find what it waits for.
    pub(crate) fn waits(&self, kept: &Kept, before: u64) -> bool
        requires { kept.now.ended < 2 ^ 20 }
        ensures { result ≡ serving.stage_waits kept.now.ended self.now before }
    {
        match self {
            ServerStage::Turning => kept.turns_again(before),
            ServerStage::Evacuating(evacuator) => evacuator.waits(before),
            ServerStage::Tracing | ServerStage::Ended => false,
        }
    }

    /// Goes on with the word that its act found. What ends a stage stands apart: a stage is large, and most steps end
    /// none.
    pub(crate) fn feed(&mut self, kept: &mut Kept, before: u64)
        requires kept { IsKept kept.old }
        requires ended { kept.old.ended < 2 ^ 20 }
        requires known { StageIsKnown kept.old.tracer self.old }
        requires acts { IsAct (serving.stage_next kept.old.tracer self.old) }
        requires fits { StageFits kept.old.tracer self.old before }
        ensures { serving_in kept.new self.new ≡ serving.stage_fed (serving_in kept.old self.old) self.old before }
    {
        match self {
            ServerStage::Turning => {
                // most turns find nothing to do
                if !kept.turns_again(before) {
                    self.turn(kept, before);
                }
            }
            ServerStage::Tracing => {
                if kept.trace(before) {
                    self.turn_anew();
                }
            }
            ServerStage::Evacuating(evacuator) => {
                evacuator.feed(before);
                if evacuator.is_ended() {
                    kept.end_cycle(evacuator);
                    self.turn_anew();
                }
            }
            ServerStage::Ended => {}
        }
    }

    /// Goes where a look at the phase leads that found this word.
    #[inline(never)]
    fn turn(&mut self, kept: &mut Kept, word: u64)
        requires kept { IsKept kept.old }
        requires rests { tracing.next_of kept.old.tracer ≡ steps.Ended }
        requires fits { serving.StageFits kept.old.tracer stages.Turning word }
        ensures { serving_in kept.new self.new ≡ serving.turned (serving_in kept.old stages.Turning) (phase_at word) }
    {
        *self = kept.turn(word);
    }

    /// Next it looks at the phase.
    #[inline(never)]
    fn turn_anew(&mut self)
        ensures { self.new ≡ stages.Turning }
    {
        *self = ServerStage::Turning;
    }
}
