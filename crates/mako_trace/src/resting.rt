//! Part 4: the end of a turn, with nothing in hand.

ghost use Rattle.std.specs.Prelude.{◌≡◌};
ghost use Rattle.mako_shape.specs.Places.{total};
ghost use Rattle.mako_step.specs.Acts.{IsWithin};
ghost use Rattle.mako_ring.specs.Tracing as tracing;
ghost use Rattle.mako_ring.specs.Windows.{tail_up};
ghost use Rattle.mako_ring.specs.declared.tracing.RestStage.TheVariants as rests;
ghost use Rattle.mako_ring.specs.declared.tracing.TraceStage.TheVariants as stages;
ghost use Rattle.mako_trace.specs.Held.{tracer_in, IsHeld, RestKnown, SameRoom};

use crate::holdings::Holdings;
use mako_ring::{RestStage, TraceStage};
use mako_step::Step;
use mako_words::FlagWord;

impl Holdings {
    pub(crate) fn rest_next(&self, stage: RestStage) -> Step
        requires held { IsHeld (tracer_in self.now stages.Ended) }
        requires stage { RestKnown (tracer_in self.now stages.Ended) stage }
        ensures next { result ≡ tracing.rest_next (tracer_in self.now stages.Ended) stage }
        ensures within { IsWithin (total self.now.shape) result }
    {
        match stage {
            RestStage::BusyLower => Step::and(self.shape.flags(self.server), !FlagWord::BUSY),
            RestStage::TailLook(receiver) => {
                let size = u64::from(self.shape.numbers().ring);
                let place = self.windows[receiver as usize].tail % size;
                Step::load(self.shape.ghost_(self.server, receiver, place as u32))
            }
            RestStage::GhostLower => Step::and(self.shape.flags(self.server), !FlagWord::GHOST),
        }
    }

    pub(crate) fn rest_fed(&mut self, stage: RestStage, before: u64) -> TraceStage
        requires held { IsHeld (tracer_in self.old stages.Ended) }
        requires stage { RestKnown (tracer_in self.old stages.Ended) stage }
        ensures fed { tracer_in self.new result ≡ tracing.rest_fed (tracer_in self.old stages.Ended) stage before }
        ensures room { SameRoom self.old self.new }
    {
        match stage {
            RestStage::BusyLower => {
                self.busy_up = false;
                self.windows_from(0)
            }
            RestStage::TailLook(receiver) => {
                if before == 0 {
                    self.see_emptied(receiver as usize);
                }
                self.windows_from(receiver + 1)
            }
            RestStage::GhostLower => {
                self.ghost_up = false;
                TraceStage::Ended
            }
        }
    }

    /// The slot at the tail of the window to this server was seen emptied.
    fn see_emptied(&mut self, receiver: usize)
        requires held { IsHeld (tracer_in self.old stages.Ended) }
        requires stage { RestKnown (tracer_in self.old stages.Ended) (rests.TailLook receiver) }
        ensures seen { tracer_in self.new stages.Ended ≡ tracing.set_window (tracer_in self.old stages.Ended) receiver
            (tail_up self.old.shape.ring (tracing.window_of (tracer_in self.old stages.Ended) receiver)) }
        ensures room { SameRoom self.old self.new }
    {
        let size = u64::from(self.shape.numbers().ring);
        let window = self.windows[receiver];
        self.windows[receiver] = window.tail_up(size);
    }
}
