//! Part 1: sending the outgoing name to its server.

ghost use Rattle.std.specs.Prelude.{◌≡◌, ◌<◌};
ghost use Rattle.mako_shape.specs.Places.{index, total};
ghost use Rattle.mako_step.specs.Acts.{IsWithin};
ghost use Rattle.mako_ring.specs.Tracing as tracing;
ghost use Rattle.mako_ring.specs.declared.tracing.TraceStage.TheVariants as stages;
ghost use Rattle.mako_trace.specs.Held.{tracer_in, IsHeld, NameKnown, SameRoom, SendKnown};

use crate::holdings::Holdings;
use mako_ring::{ReceiveStage, SendStage, Source, TraceStage};
use mako_step::Step;
use mako_words::{FlagWord, Name, Value};

impl Holdings {
    /// The index of the slot at the head of its window to the name's server.
    fn head_slot(&self, name: Name) -> u32
        requires held { IsHeld (tracer_in self.now stages.Ended) }
        requires name { NameKnown self.now.shape name }
        ensures index { result ≡ index self.now.shape (tracing.head_slot (tracer_in self.now stages.Ended) name) }
        ensures below { result < total self.now.shape }
    {
        let size = u64::from(self.shape.numbers().ring);
        let receiver = self.owner(name);
        let place = self.windows[receiver as usize].head % size;
        self.shape.ghost_(self.server, receiver, place as u32)
    }

    pub(crate) fn send_next(&self, stage: SendStage) -> Step
        requires held { IsHeld (tracer_in self.now stages.Ended) }
        requires stage { SendKnown (tracer_in self.now stages.Ended) stage }
        ensures next { result ≡ tracing.send_next (tracer_in self.now stages.Ended) stage }
        ensures within { IsWithin (total self.now.shape) result }
    {
        match stage {
            SendStage::HeadLook(name) => Step::load(self.head_slot(name)),
            SendStage::GhostRaise(_) => Step::or(
                self.shape.flags(self.server),
                FlagWord::GHOST + FlagWord::CHANGED,
            ),
            SendStage::HeadStore(name) => {
                Step::store(self.head_slot(name), Value::Ref(name).pack())
            }
        }
    }

    pub(crate) fn send_fed(&mut self, stage: SendStage, before: u64) -> TraceStage
        requires held { IsHeld (tracer_in self.old stages.Ended) }
        requires stage { SendKnown (tracer_in self.old stages.Ended) stage }
        ensures fed { tracer_in self.new result ≡ tracing.send_fed (tracer_in self.old stages.Ended) stage before }
        ensures room { SameRoom self.old self.new }
    {
        match stage {
            SendStage::HeadLook(name) if before == 0 => {
                let size = u64::from(self.shape.numbers().ring);
                let receiver = self.owner(name) as usize;
                let window = self.windows[receiver];
                self.windows[receiver] = window.found_room(size);
                TraceStage::Sending(SendStage::GhostRaise(name))
            }
            SendStage::HeadLook(_) => TraceStage::Receiving(ReceiveStage::SlotLook(
                Source::Collector,
            )),
            SendStage::GhostRaise(name) => {
                self.ghost_up = true;
                TraceStage::Sending(SendStage::HeadStore(name))
            }
            SendStage::HeadStore(name) => {
                let size = u64::from(self.shape.numbers().ring);
                let receiver = self.owner(name) as usize;
                let window = self.windows[receiver];
                self.windows[receiver] = window.head_up(size);
                self.outgoing = None;
                self.next_work()
            }
        }
    }
}
