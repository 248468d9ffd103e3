//! What a server keeps from turn to turn.

ghost use Rattle.std.specs.Prelude.{◌≡◌, ◌<◌, ◌≤◌, ◌^◌, ◌↔◌, IfOk, IsTrue};
ghost use Rattle.mako_step.specs.Machines.{IsAct};
ghost use Rattle.mako_step.specs.declared.step.Step.TheVariants as steps;
ghost use Rattle.mako_ring.specs.Tracing as tracing;
ghost use Rattle.mako_evac.specs.Evacuating as evacuating;
ghost use Rattle.mako_words.specs.Phases.{IsPackedPhase, phase_at};

use crate::stage::ServerStage;
use mako_evac::Evacuator;
use mako_step::Machine;
use mako_trace::Tracer;
use mako_words::PhaseWord;

/// What a server keeps from turn to turn.
#[derive(Drop)]
pub(crate) struct Kept {
    pub(crate) tracer: Tracer,
    /// The slot of its notice ring for the next notice.
    pub(crate) notice_at: u64,
    /// The last cycle that it has ended, or 0.
    pub(crate) ended: u32,
}

/// The phase of a word that is a phase's.
fn phase_of(word: u64) -> PhaseWord
    requires { IsPackedPhase word }
    ensures { result ≡ phase_at word }
{
    match PhaseWord::unpack(word) {
        Some(phase) => phase,
        None => unreachable!(),
    }
}

impl Kept {
    ghost use Rattle.mako_server.specs.Serving as serving;
    ghost use Rattle.mako_server.specs.Kept.{serving_in, IsKept};
    ghost use Rattle.mako_server.specs.declared.stage.ServerStage.TheVariants as stages;

    /// Whether a look at the phase that finds this word has to be made again: no cycle runs, or the one
    /// that it has ended is still evacuated.
    pub(crate) fn turns_again(&self, word: u64) -> bool
        requires { self.now.ended < 2 ^ 20 }
        ensures { result ≡ serving.phase_waits self.now.ended (phase_at word) }
    {
        // the words of Idle are those below the words of Trace
        word < PhaseWord::Trace(0).pack() || word == PhaseWord::Evac(self.ended).pack()
    }

    /// Where it stands after a look at the phase that found this word.
    pub(crate) fn turn(&mut self, word: u64) -> ServerStage
        requires kept { IsKept self.old }
        requires rests { tracing.next_of self.old.tracer ≡ steps.Ended }
        requires fits { serving.StageFits self.old.tracer stages.Turning word }
        ensures { serving_in self.new result ≡ serving.turned (serving_in self.old stages.Turning) (phase_at word) }
    {
        match phase_of(word) {
            PhaseWord::Idle(_) => ServerStage::Turning,
            PhaseWord::Trace(cycle) => {
                self.tracer.begin(cycle);
                ServerStage::Tracing
            }
            PhaseWord::Evac(cycle) if cycle == self.ended => ServerStage::Turning,
            PhaseWord::Evac(cycle) => {
                let (shape, server) = (*self.tracer.shape(), self.tracer.server());
                ServerStage::Evacuating(Evacuator::new(shape, server, cycle, self.notice_at))
            }
            PhaseWord::Stop(_) => ServerStage::Ended,
        }
    }

    /// Goes on with its tracing by this word. Whether the turn has ended.
    pub(crate) fn trace(&mut self, word: u64) -> bool
        requires acts { IsAct (tracing.next_of self.old.tracer) }
        requires fits { tracing.Fits self.old.tracer word }
        ensures kept { self.new ≡ record self.old { tracer = tracing.fed self.old.tracer word } }
        ensures ended { IsTrue result ↔ (tracing.next_of self.new.tracer ≡ steps.Ended) }
    {
        self.tracer.feed(word);
        self.tracer.is_ended()
    }

    /// The cycle of this evacuation has ended.
    pub(crate) fn end_cycle(&mut self, evacuator: &Evacuator)
        requires { evacuating.next_of evacuator.now ≡ steps.Ended }
        ensures { self.new ≡ record self.old { notice_at = evacuator.now.at; ended = evacuator.now.owner.cycle } }
    {
        self.notice_at = evacuator.result();
        self.ended = evacuator.cycle();
    }
}
