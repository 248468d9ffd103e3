//! Considering a name: marking its object, and counting the words of its record.

ghost use Rattle.std.specs.Prelude.{◌≡◌, ◌<◌};
ghost use Rattle.mako_shape.specs.Places.{index, total, live};
ghost use Rattle.mako_shape.specs.Belongings.{tablet_of_entry};
ghost use Rattle.mako_step.specs.Acts.{IsWithin};
ghost use Rattle.mako_ring.specs.Tracing as tracing;
ghost use Rattle.mako_ring.specs.declared.tracing.TraceStage.TheVariants as stages;
ghost use Rattle.mako_trace.specs.Held.{tracer_in, HasRoom, IsHeld, MarkKnown, SameRoom};

use crate::holdings::Holdings;
use crate::words::entry_of;
use mako_ring::{MarkStage, TraceStage};
use mako_step::Step;
use mako_words::{EntryWord, LiveWord, Name};

impl Holdings {
    /// The place of the name's tablet among those of its server.
    pub(crate) fn own_tablet(&self, name: Name) -> usize
        requires named { tracing.IsNamed self.now.shape name }
        ensures tablet { result ≡ tracing.own_tablet self.now.shape name.entry }
        ensures below { result < self.now.shape.tablets }
    {
        let numbers = self.shape.numbers();
        (name.entry / numbers.entries % numbers.tablets) as usize
    }

    /// The index of the word with the live count of the name's tablet.
    fn live_index(&self, name: Name) -> u32
        requires named { tracing.IsNamed self.now.shape name }
        ensures index { result ≡ index self.now.shape (live (tablet_of_entry self.now.shape name.entry)) }
        ensures below { result < total self.now.shape }
    {
        self.shape.live(name.entry / self.shape.numbers().entries)
    }

    pub(crate) fn mark_next(&self, stage: MarkStage) -> Step
        requires held { IsHeld (tracer_in self.now stages.Ended) }
        requires stage { MarkKnown (tracer_in self.now stages.Ended) stage }
        ensures next { result ≡ tracing.mark_next (tracer_in self.now stages.Ended) stage }
        ensures within { IsWithin (total self.now.shape) result }
    {
        match stage {
            MarkStage::Considering(name) => Step::load(self.shape.entry(name.entry)),
            MarkStage::Measuring { entry, .. } => Step::load(entry.address),
            MarkStage::Marking { name, entry, .. } => {
                let marked = EntryWord {
                    epoch: self.cycle,
                    ..entry
                };
                Step::store(self.shape.entry(name.entry), marked.pack())
            }
            MarkStage::Counting { name, fields } => {
                let count = LiveWord {
                    cycle: self.cycle,
                    words: self.lives[self.own_tablet(name)] + (u32::from(fields) + 1),
                };
                Step::store(self.live_index(name), count.pack())
            }
        }
    }

    pub(crate) fn mark_fed(&mut self, stage: MarkStage, before: u64) -> TraceStage
        requires held { IsHeld (tracer_in self.old stages.Ended) }
        requires room { HasRoom self.old }
        requires stage { MarkKnown (tracer_in self.old stages.Ended) stage }
        requires fits { tracing.MarkFits (tracer_in self.old stages.Ended) stage before }
        ensures fed { tracer_in self.new result ≡ tracing.mark_fed (tracer_in self.old stages.Ended) stage before }
        ensures room { SameRoom self.old self.new }
    {
        match stage {
            MarkStage::Considering(name) => {
                let entry = entry_of(before);
                if entry.epoch == self.cycle {
                    return self.next_work();
                }
                TraceStage::Marking(MarkStage::Measuring { name, entry })
            }
            MarkStage::Measuring { name, entry } => TraceStage::Marking(MarkStage::Marking {
                name,
                entry,
                fields: before as u8,
            }),
            MarkStage::Marking { name, fields, .. } => {
                TraceStage::Marking(MarkStage::Counting { name, fields })
            }
            MarkStage::Counting { name, fields } => {
                let tablet = self.own_tablet(name);
                self.lives[tablet] = self.lives[tablet] + (u32::from(fields) + 1);
                self.stack.push_reserved(name.entry);
                self.next_work()
            }
        }
    }
}
