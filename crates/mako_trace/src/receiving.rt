//! Part 3: taking names out of the incoming rings.

ghost use Rattle.std.specs.Prelude.{◌≡◌, ◌<◌};
ghost use Rattle.mako_shape.specs.Places.{index, total};
ghost use Rattle.mako_step.specs.Acts.{IsWithin};
ghost use Rattle.mako_ring.specs.Tracing as tracing;
ghost use Rattle.mako_ring.specs.declared.tracing.TraceStage.TheVariants as stages;
ghost use Rattle.mako_trace.specs.Held.{tracer_in, IsHeld, ReceiveKnown, SameRoom, SourceKnown};

use crate::holdings::Holdings;
use crate::words::name_of;
use mako_ring::{MarkStage, ReceiveStage, Source, TraceStage, next_place};
use mako_step::Step;
use mako_words::FlagWord;

impl Holdings {
    /// The index of the slot at its position in a ring.
    fn slot(&self, source: Source) -> u32
        requires held { IsHeld (tracer_in self.now stages.Ended) }
        requires source { SourceKnown self.now.shape source }
        ensures index { result ≡ index self.now.shape (tracing.slot_of (tracer_in self.now stages.Ended) source) }
        ensures below { result < total self.now.shape }
    {
        match source {
            Source::Collector => self.shape.work(self.server, self.work_at as u32),
            Source::Server(sender) => {
                let at = self.ghost_at[sender as usize];
                self.shape.ghost_(sender, self.server, at as u32)
            }
        }
    }

    pub(crate) fn receive_next(&self, stage: ReceiveStage) -> Step
        requires held { IsHeld (tracer_in self.now stages.Ended) }
        requires stage { ReceiveKnown (tracer_in self.now stages.Ended) stage }
        ensures next { result ≡ tracing.receive_next (tracer_in self.now stages.Ended) stage }
        ensures within { IsWithin (total self.now.shape) result }
    {
        match stage {
            ReceiveStage::SlotLook(source) => Step::load(self.slot(source)),
            ReceiveStage::BusyRaise { .. } => Step::or(
                self.shape.flags(self.server),
                FlagWord::BUSY + FlagWord::CHANGED,
            ),
            ReceiveStage::SlotClear { source, .. } => Step::store(self.slot(source), 0),
        }
    }

    /// The number of the sender whose ring comes behind this one.
    fn after_source(&self, source: Source) -> u32
        requires { SourceKnown self.now.shape source }
        ensures { result ≡ tracing.after_source (tracer_in self.now stages.Ended) source }
    {
        let _numbers = self.shape.numbers();
        match source {
            Source::Collector => if self.server == 0 { 1 } else { 0 },
            Source::Server(sender) if sender + 1 == self.server => sender + 2,
            Source::Server(sender) => sender + 1,
        }
    }

    /// Its position in a ring rises.
    fn advance(&mut self, source: Source)
        requires held { IsHeld (tracer_in self.old stages.Ended) }
        requires source { SourceKnown self.old.shape source }
        ensures advanced { tracer_in self.new stages.Ended ≡ tracing.advanced (tracer_in self.old stages.Ended) source }
        ensures room { SameRoom self.old self.new }
    {
        let size = u64::from(self.shape.numbers().ring);
        match source {
            Source::Collector => self.work_at = next_place(size, self.work_at),
            Source::Server(sender) => {
                let at = self.ghost_at[sender as usize];
                self.ghost_at[sender as usize] = next_place(size, at);
            }
        }
    }

    pub(crate) fn receive_fed(&mut self, stage: ReceiveStage, before: u64) -> TraceStage
        requires held { IsHeld (tracer_in self.old stages.Ended) }
        requires stage { ReceiveKnown (tracer_in self.old stages.Ended) stage }
        requires fits { tracing.ReceiveFits (tracer_in self.old stages.Ended) stage before }
        ensures fed { tracer_in self.new result ≡ tracing.receive_fed (tracer_in self.old stages.Ended) stage before }
        ensures room { SameRoom self.old self.new }
    {
        match stage {
            ReceiveStage::SlotLook(source) if before == 0 => {
                self.rings_from(self.after_source(source))
            }
            ReceiveStage::SlotLook(source) => {
                let name = name_of(before);
                TraceStage::Receiving(ReceiveStage::BusyRaise { source, name })
            }
            ReceiveStage::BusyRaise { source, name } => {
                self.busy_up = true;
                TraceStage::Receiving(ReceiveStage::SlotClear { source, name })
            }
            ReceiveStage::SlotClear { source, name } => {
                self.advance(source);
                TraceStage::Marking(MarkStage::Considering(name))
            }
        }
    }
}
