//! The stages of a `collect`, which asks for a cycle of the collector and looks whether it has finished.

ghost use Rattle.std.specs.Prelude.{◌≡◌};
ghost use Rattle.mako_shape.specs.Places.{total};
ghost use Rattle.mako_step.specs.Acts.{IsWithin};
ghost use Rattle.mako_words.specs.Phases as phases;
ghost use Rattle.mako_call.specs.Asking as asking;
ghost use Rattle.mako_call.specs.Asking.{ask_next, ask_fed, ask_waits, AskFits};
ghost use Rattle.mako_call.specs.Calls.{StageFits, tells};
ghost use Rattle.mako_call.specs.Standings.{stage_at};

use crate::standing::Standing;
use crate::words::phase_of;
use mako_model::{Attempt, Pause, Reply};
use mako_shape::Shape;
use mako_step::Step;
use mako_words::PhaseWord;

/// Where an attempt stands that asks for a cycle.
#[derive(Clone, Copy)]
pub enum AskStage {
    LoadingPhase,
    /// It raises the demand to this cycle.
    RaisingDemand { cycle: u32 },
    /// It has asked for this cycle, and looks whether it has finished.
    Awaiting { cycle: u32 },
}

impl AskStage {
    pub(crate) fn next(self, shape: &Shape) -> Step
        ensures next { result ≡ ask_next shape.now self }
        ensures within { IsWithin (total shape.now) result }
    {
        match self {
            AskStage::LoadingPhase | AskStage::Awaiting { .. } => Step::load(shape.phase()),
            AskStage::RaisingDemand { cycle } => Step::max(shape.demand(), u64::from(cycle)),
        }
    }

    /// Whether it looks for the end of a cycle, and finds that it has not finished.
    pub(crate) fn waits_on(self, _shape: &Shape, before: u64) -> bool
        requires { AskFits _shape.now self before }
        ensures { result ≡ ask_waits self before }
    {
        match self {
            AskStage::Awaiting { cycle } => finished_cycles(phase_of(before)) < cycle,
            AskStage::LoadingPhase | AskStage::RaisingDemand { .. } => false,
        }
    }
}

impl Standing {
    ghost use Rattle.mako_call.specs.declared.asking.AskStage.{AskStage};
    ghost use Rattle.mako_call.specs.declared.standing.Standing.TheVariants as standings;

    /// Goes on with this word, where it asks for a cycle.
    #[inline(always)]
    pub(crate) fn feed_asking(&mut self, shape: &Shape, before: u64) -> bool
        requires fits { StageFits shape.now (stage_at self.old) before }
        ensures { (stage : AskStage) → self.old ≡ standings.Asking stage →
            (stage_at self.new ≡ ask_fed shape.now stage before)
            × (result ≡ tells (stage_at self.old) (stage_at self.new)) }
    {
        let Standing::Asking(stage) = self else {
            return false;
        };
        match *stage {
            AskStage::LoadingPhase => {
                let cycle = cycle_of(phase_of(before));
                if cycle == shape.numbers().cycles {
                    *self = Standing::Ended(Attempt::Answer(Reply::Spent));
                    return true;
                }
                *stage = AskStage::RaisingDemand { cycle: cycle + 1 };
            }
            AskStage::RaisingDemand { cycle } => *stage = AskStage::Awaiting { cycle },
            AskStage::Awaiting { cycle } => {
                if finished_cycles(phase_of(before)) >= cycle {
                    *self = Standing::Ended(Attempt::Answer(Reply::Cycle(cycle)));
                    return true;
                }
                let (wanted, word) = (cycle, before);
                *self = Standing::Ended(Attempt::Pause(Pause::Cycle { wanted, word }));
            }
        }
        false
    }
}

/// The cycle of a phase.
pub(crate) fn cycle_of(phase: PhaseWord) -> u32
    ensures { result ≡ phases.cycle_of phase }
{
    match phase {
        PhaseWord::Idle(cycle)
        | PhaseWord::Trace(cycle)
        | PhaseWord::Evac(cycle)
        | PhaseWord::Stop(cycle) => cycle,
    }
}

/// How many cycles have finished in a phase.
fn finished_cycles(phase: PhaseWord) -> u32
    requires { asking.CountsFrom phase }
    ensures { result ≡ asking.finished_cycles phase }
{
    match phase {
        PhaseWord::Idle(cycle) | PhaseWord::Stop(cycle) => cycle,
        PhaseWord::Trace(cycle) | PhaseWord::Evac(cycle) => cycle - 1,
    }
}
