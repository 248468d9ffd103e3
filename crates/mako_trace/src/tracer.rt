//! A server's tracing, as a machine.

ghost use Rattle.std.specs.Prelude.{◌≡◌, ◌<◌, ◌≤◌, ◌↔◌, false, IfOk, IsTrue};
ghost use Rattle.mako_shape.specs.Places.{total};
ghost use Rattle.mako_step.specs.Acts.{IsWithin};

use crate::holdings::Holdings;
use mako_model::Event;
use mako_ring::TraceStage;
use mako_shape::Shape;
use mako_step::{Machine, Step};
use mako_words::Memory;
use std::alloc::Global;
use std::marker::Model;

/// Traces what is reachable from the names that a server takes: a turn ends when the server has
/// nothing in hand. It marks the server's own entries with the cycle's epoch, counts the words of
/// their records, and sends the names of others to their servers.
#[derive(Drop)]
pub struct Tracer {
    pub(crate) holdings: Holdings,
    pub(crate) stage: TraceStage,
}

impl Model for Tracer {
    ghost use Rattle.mako_ring.specs.Tracing.{TracerView};
    ghost use Rattle.mako_trace.specs.Held.{tracer_in, HasRoom, IsKnown};

    ghost Value = { TracerView };

    ghost view = { λ t. tracer_in t.holdings t.stage };

    ghost invariant = { λ t. IsKnown (tracer_in t.holdings t.stage) × HasRoom t.holdings };
}

impl Tracer {
    ghost use Rattle.mako_ring.specs.Tracing as tracing;
    ghost use Rattle.mako_step.specs.declared.step.Step.TheVariants.{Ended};

    /// The tracing of this server, with no turn begun. It takes all memory that it ever takes: room for the entries of
    /// all its tablets, and a live count, in words, for each tablet. `Memory` means that there was not enough.
    pub fn new(alloc: Global, shape: Shape, server: u32) -> Result<Tracer, Memory>
        requires { server < shape.servers }
        ensures { IfOk result (λ t. t ≡ tracing.new_tracer shape server) }
    {
        let holdings = Holdings::new(alloc, shape, server)?;
        Ok(Tracer {
            holdings,
            stage: TraceStage::Ended,
        })
    }

    /// Begins a turn of a cycle. The live counts become 0 exactly where the cycle is another than at
    /// the turn before.
    pub fn begin(&mut self, cycle: u32)
        requires ended { tracing.next_of self.old ≡ Ended }
        requires from { 1 ≤ cycle }
        requires to { cycle ≤ self.old.shape.cycles }
        ensures { self.new ≡ tracing.begun self.old cycle }
    {
        self.stage = self.holdings.begin(cycle);
    }

    /// The geometry of the heap.
    pub fn shape(&self) -> &Shape
        ensures { result.now ≡ self.now.shape }
    {
        &self.holdings.shape
    }

    /// The number of the server.
    pub fn server(&self) -> u32
        ensures server { result ≡ self.now.server }
        ensures below { result < self.now.shape.servers }
    {
        self.holdings.server
    }

    /// Whether no turn is begun, or the last one has ended.
    pub fn is_ended(&self) -> bool
        ensures { IsTrue result ↔ (tracing.next_of self.now ≡ Ended) }
    {
        matches!(self.stage, TraceStage::Ended)
    }

    /// What a turn came to: nothing, each time that the server has nothing in hand.
    pub fn result(&self)
        requires { tracing.next_of self.now ≡ Ended }
    {}
}

impl Machine for Tracer {
    type Event = Event;

    ghost use Rattle.mako_model.specs.declared.event.Event.TheVariants.{Nothing};
    ghost use Rattle.mako_ring.specs.Tracing as tracing;
    ghost use Rattle.mako_trace.specs.Ranks as ranks;

    ghost next_of = { tracing.next_of };

    ghost Fits = { tracing.Fits };

    ghost fed = { tracing.fed };

    ghost event_of = { λ _ _. Nothing };

    ghost is_waiting = { λ _ _. false };

    ghost is_renewed = { ranks.is_renewed };

    ghost rank = { ranks.rank };

    fn next(&self) -> Step
        ensures next { result ≡ tracing.next_of self.now }
        ensures within { IsWithin (total self.now.shape) result }
    {
        self.holdings.stage_next(self.stage)
    }

    fn waits(&self, _before: u64) -> bool {
        false
    }

    fn feed(&mut self, before: u64) -> Event {
        self.stage = self.holdings.stage_fed(self.stage, before);
        Event::Nothing
    }
}
