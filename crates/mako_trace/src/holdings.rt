//! What a server keeps of its tracing, and where its parts begin.

ghost use Rattle.std.specs.Prelude.{◌≡◌, ◌+◌, ◌<◌, ◌≤◌, ◌^◌, IfOk, IfSome, drop, length, position};
ghost use Rattle.mako_shape.specs.Limits.{all_entries};
ghost use Rattle.mako_shape.specs.Places.{total};
ghost use Rattle.mako_step.specs.Acts.{IsWithin};
ghost use Rattle.mako_ring.specs.Tracing as tracing;
ghost use Rattle.mako_ring.specs.Tracing.{is_open, owner};
ghost use Rattle.mako_ring.specs.declared.tracing.TraceStage.TheVariants as stages;
ghost use Rattle.mako_trace.specs.Held.{tracer_in, HasRoom, IsHeld, SameRoom, StageKnown};

use mako_ring::{ReceiveStage, RestStage, Scan, ScanStage, SendStage, Source, TraceStage, Window};
use mako_shape::Shape;
use mako_step::Step;
use mako_words::{Memory, Name};
use std::alloc::Global;

/// What a server keeps of its tracing from step to step.
#[derive(Drop)]
pub struct Holdings {
    pub(crate) shape: Shape,
    pub(crate) server: u32,
    pub(crate) cycle: u32,
    /// Entries that are marked and not scanned yet. The last is the top.
    pub(crate) stack: Vec<u32>,
    pub(crate) scan: Option<Scan>,
    /// A name of another server, to be sent there.
    pub(crate) outgoing: Option<Name>,
    /// The window of the ring to each server.
    pub(crate) windows: Vec<Window>,
    /// The position in the work ring.
    pub(crate) work_at: u64,
    /// The position in the ring from each server.
    pub(crate) ghost_at: Vec<u64>,
    /// How many words of each own tablet are marked.
    pub(crate) lives: Vec<u32>,
    pub(crate) busy_up: bool,
    pub(crate) ghost_up: bool,
}

/// The first window with a slot that was not seen emptied.
fn first_open(windows: &[Window]) -> Option<usize>
    ensures first { result ≡ position is_open windows.now }
    ensures below { IfSome result (λ k. k < length windows.now) }
{
    windows.iter().position(|window| window.tail < window.head)
}

impl Holdings {
    /// What a server keeps before its first turn. It takes all memory that tracing ever takes.
    pub(crate) fn new(alloc: Global, shape: Shape, server: u32) -> Result<Holdings, Memory>
        ensures new { IfOk result (λ h. tracer_in h stages.Ended ≡ tracing.new_tracer shape server) }
        ensures room { IfOk result (λ h. HasRoom h) }
    {
        let numbers = shape.numbers();
        let servers = numbers.servers as usize;
        let own_entries = (numbers.tablets * numbers.entries) as usize;
        let no_window = Window { head: 0, tail: 0 };
        Ok(Holdings {
            shape,
            server,
            cycle: 0,
            stack: Vec::with_capacity(alloc, own_entries).map_err(|_| Memory)?,
            scan: None,
            outgoing: None,
            windows: vec![in alloc; no_window; servers].map_err(|_| Memory)?,
            work_at: 0,
            ghost_at: vec![in alloc; 0u64; servers].map_err(|_| Memory)?,
            lives: vec![in alloc; 0u32; numbers.tablets as usize].map_err(|_| Memory)?,
            busy_up: false,
            ghost_up: false,
        })
    }

    /// Where a turn of a cycle begins. The live counts become 0 where the cycle is another than before.
    pub(crate) fn begin(&mut self, cycle: u32) -> TraceStage
        requires { length self.old.lives.items ≡ self.old.shape.tablets }
        ensures begun { tracer_in self.new result ≡ tracing.begun (tracer_in self.old stages.Ended) cycle }
        ensures room { SameRoom self.old self.new }
    {
        if cycle != self.cycle {
            self.lives.fill(0);
        }
        self.cycle = cycle;
        self.next_work()
    }

    /// Where it goes on: the outgoing name first, then the scan, then the top of the stack, and with
    /// nothing of these the incoming rings.
    pub(crate) fn next_work(&mut self) -> TraceStage
        ensures work { tracer_in self.new result ≡ tracing.next_work (tracer_in self.old stages.Ended) }
        ensures room { SameRoom self.old self.new }
    {
        if let Some(name) = self.outgoing {
            return TraceStage::Sending(SendStage::HeadLook(name));
        }
        if let Some(scan) = self.scan {
            return TraceStage::Scanning(ScanStage::FieldLoad(scan));
        }
        match self.stack.pop() {
            Some(entry) => TraceStage::Scanning(ScanStage::EntryLoad(entry)),
            None => TraceStage::Receiving(ReceiveStage::SlotLook(Source::Collector)),
        }
    }

    /// The incoming rings from this sender's on, and past the last the outgoing name, or rest.
    pub(crate) fn rings_from(&self, sender: u32) -> TraceStage
        requires { length self.now.windows.items < 2 ^ 32 }
        ensures { tracer_in self.now result ≡ tracing.rings_from (tracer_in self.now stages.Ended) sender }
    {
        if sender < self.shape.numbers().servers {
            return TraceStage::Receiving(ReceiveStage::SlotLook(Source::Server(sender)));
        }
        match self.outgoing {
            Some(name) => TraceStage::Sending(SendStage::HeadLook(name)),
            None => self.rest(),
        }
    }

    /// With nothing in hand: the flag busy is lowered, and then the windows are looked at.
    fn rest(&self) -> TraceStage
        requires { length self.now.windows.items < 2 ^ 32 }
        ensures { tracer_in self.now result ≡ tracing.rest (tracer_in self.now stages.Ended) }
    {
        if self.busy_up {
            TraceStage::Resting(RestStage::BusyLower)
        } else {
            self.windows_from(0)
        }
    }

    /// The windows from one on: the first that is open, and past the last the flag ghost.
    pub(crate) fn windows_from(&self, first: u32) -> TraceStage
        requires few { length self.now.windows.items < 2 ^ 32 }
        requires first { first ≤ length self.now.windows.items }
        ensures { tracer_in self.now result ≡ tracing.windows_from (tracer_in self.now stages.Ended) first }
    {
        let (_, later) = self.windows.split_at(first as usize);
        match first_open(later) {
            Some(passed) => TraceStage::Resting(RestStage::TailLook(first + passed as u32)),
            None if self.ghost_up && first_open(&self.windows).is_none() => {
                TraceStage::Resting(RestStage::GhostLower)
            }
            None => TraceStage::Ended,
        }
    }

    /// The server of a name.
    pub(crate) fn owner(&self, name: Name) -> u32
        requires { name.entry < all_entries self.now.shape }
        ensures owner { result ≡ owner self.now.shape name }
        ensures below { result < self.now.shape.servers }
    {
        let numbers = self.shape.numbers();
        name.entry / numbers.entries / numbers.tablets
    }

    /// What it does next, at a stage.
    pub(crate) fn stage_next(&self, stage: TraceStage) -> Step
        requires held { IsHeld (tracer_in self.now stages.Ended) }
        requires stage { StageKnown (tracer_in self.now stages.Ended) stage }
        ensures next { result ≡ tracing.stage_next (tracer_in self.now stages.Ended) stage }
        ensures within { IsWithin (total self.now.shape) result }
    {
        match stage {
            TraceStage::Sending(stage) => self.send_next(stage),
            TraceStage::Scanning(stage) => self.scan_next(stage),
            TraceStage::Receiving(stage) => self.receive_next(stage),
            TraceStage::Marking(stage) => self.mark_next(stage),
            TraceStage::Resting(stage) => self.rest_next(stage),
            TraceStage::Ended => Step::Ended,
        }
    }

    /// The stage behind a stage, by the word that its act found.
    pub(crate) fn stage_fed(&mut self, stage: TraceStage, before: u64) -> TraceStage
        requires held { IsHeld (tracer_in self.old stages.Ended) }
        requires room { HasRoom self.old }
        requires stage { StageKnown (tracer_in self.old stages.Ended) stage }
        requires fits { tracing.StageFits (tracer_in self.old stages.Ended) stage before }
        ensures fed { tracer_in self.new result ≡ tracing.stage_fed (tracer_in self.old stages.Ended) stage before }
        ensures room { SameRoom self.old self.new }
    {
        match stage {
            TraceStage::Sending(stage) => self.send_fed(stage, before),
            TraceStage::Scanning(stage) => self.scan_fed(stage, before),
            TraceStage::Receiving(stage) => self.receive_fed(stage, before),
            TraceStage::Marking(stage) => self.mark_fed(stage, before),
            TraceStage::Resting(stage) => self.rest_fed(stage, before),
            TraceStage::Ended => TraceStage::Ended,
        }
    }
}
