//! A server, as a machine.

ghost use Rattle.std.specs.Prelude.{◌≡◌, ◌<◌, ◌↔◌, IfOk, IsTrue};
ghost use Rattle.mako_shape.specs.Places.{total};
ghost use Rattle.mako_step.specs.Acts.{IsWithin};
ghost use Rattle.mako_step.specs.declared.step.Step.TheVariants as steps;

use crate::kept::Kept;
use crate::stage::ServerStage;
use mako_model::Event;
use mako_shape::Shape;
use mako_step::{Machine, Step};
use mako_trace::Tracer;
use mako_words::Memory;
use std::alloc::Global;
use std::marker::Model;

/// Looks at the phase again and again, and does what it asks for: a turn of the tracing in Trace, the
/// evacuation once in each Evac. It is at its end once it finds Stop.
#[derive(Drop)]
pub struct Server {
    kept: Kept,
    stage: ServerStage,
}

impl Model for Server {
    ghost use Rattle.mako_server.specs.Serving.{Serving, IsKnown};
    ghost use Rattle.mako_server.specs.Kept.{serving_in};

    ghost Value = { Serving };

    ghost view = { λ s. serving_in s.kept s.stage };

    ghost invariant = { λ s. IsKnown (serving_in s.kept s.stage) };
}

impl Server {
    ghost use Rattle.mako_server.specs.Serving as serving;

    /// This server, before its first turn. It takes all memory that it ever takes.
    pub fn new(alloc: Global, shape: Shape, server: u32) -> Result<Server, Memory>
        requires { server < shape.servers }
        ensures { IfOk result (λ s. s ≡ serving.opening shape server) }
    {
        let _numbers = shape.numbers();
        let tracer = Tracer::new(alloc, shape, server)?;
        let kept = Kept {
            tracer,
            notice_at: 0,
            ended: 0,
        };
        Ok(Server {
            kept,
            stage: ServerStage::Turning,
        })
    }

    /// Whether it has found Stop.
    pub fn is_ended(&self) -> bool
        ensures { IsTrue result ↔ (serving.next_of self.now ≡ steps.Ended) }
    {
        matches!(self.stage, ServerStage::Ended)
    }
}

impl Machine for Server {
    type Event = Event;

    ghost use Rattle.mako_model.specs.declared.event.Event.TheVariants.{Nothing};
    ghost use Rattle.mako_server.specs.Serving as serving;

    ghost next_of = { serving.next_of };

    ghost Fits = { serving.Fits };

    ghost fed = { serving.fed };

    ghost event_of = { λ _ _. Nothing };

    ghost is_waiting = { serving.is_waiting };

    ghost is_renewed = { serving.is_renewed };

    ghost rank = { serving.rank };

    fn next(&self) -> Step
        ensures next { result ≡ serving.next_of self.now }
        ensures within { IsWithin (total self.now.tracer.shape) result }
    {
        self.stage.next(&self.kept)
    }

    fn waits(&self, before: u64) -> bool {
        self.stage.waits(&self.kept, before)
    }

    fn feed(&mut self, before: u64) -> Event {
        self.stage.feed(&mut self.kept, before);
        Event::Nothing
    }
}
