//! The stages of an attempt, in groups.

ghost use Rattle.std.specs.Prelude.{◌≡◌, ◌<◌, None};
ghost use Rattle.mako_shape.specs.Places.{total};
ghost use Rattle.mako_step.specs.Acts.{IsWithin};
ghost use Rattle.mako_call.specs.Agreeing.{Arrives, StageOf};
ghost use Rattle.mako_call.specs.Callers.{IsCaller};
ghost use Rattle.mako_call.specs.Calls as calls;
ghost use Rattle.mako_call.specs.Calls.{StageIsKnown, StageFits};

use crate::allocating::AllocStage;
use crate::asking::AskStage;
use crate::caller::Caller;
use crate::entering::EnterStage;
use crate::getting::GetStage;
use crate::leaving::LeaveStage;
use crate::moving::MoveStage;
use crate::object::{Errand, Get, Located, Put};
use crate::putting::PutStage;
use crate::rooting::RootStage;
use mako_model::{Attempt, Call, Reply};
use mako_step::{Machine, Step};
use mako_words::GateWord;

/// Where an attempt of a call stands.
#[derive(Clone, Copy)]
pub enum CallStage {
    /// Next it arrives at its own gate.
    Arriving,
    /// Admitted there, it works on the mutator's roots.
    Rooting(RootStage),
    /// It enters the tablet of an object, and finds the object's record.
    Entering(Errand, EnterStage),
    /// It moves the record into the tablet's home.
    Moving(Errand, MoveStage),
    /// It reads a field.
    Getting(Located, Get, GetStage),
    /// It stores a field.
    Putting(Located, Put, PutStage),
    /// It makes an object.
    Allocating(AllocStage),
    /// It asks for a cycle of the collector.
    Asking(AskStage),
    /// It leaves the gates at which it arrived.
    Leaving(LeaveStage),
    Ended(Attempt),
}

impl CallStage {
    /// The reply, once the call is decided.
    pub(crate) fn decided(&self) -> Option<Reply>
        ensures { result ≡ calls.decided self.now }
    {
        match *self {
            CallStage::Getting(_, _, GetStage::StoringRoot(value)) => Some(Reply::Value(value)),
            CallStage::Allocating(
                AllocStage::StoringRoot { name, .. } | AllocStage::GivingTurn { name, .. },
            ) => Some(Reply::Made(name)),
            CallStage::Leaving(
                LeaveStage::FromTablet {
                    outcome: Attempt::Answer(reply),
                    ..
                }
                | LeaveStage::FromOwn(Attempt::Answer(reply)),
            )
            | CallStage::Ended(Attempt::Answer(reply)) => Some(reply),
            _ => None,
        }
    }

    #[inline(always)]
    pub(crate) fn next(&self, caller: &Caller, slot: u32) -> Step
        requires caller { IsCaller caller.now }
        requires slot { slot < caller.now.shape.ring }
        requires known { StageIsKnown caller.now self.now }
        ensures next { result ≡ calls.stage_next caller.now slot self.now }
        ensures within { IsWithin (total caller.now.shape) result }
    {
        match *self {
            CallStage::Arriving => Step::add(caller.gate(), 1),
            CallStage::Rooting(stage) => stage.next(caller),
            CallStage::Entering(errand, stage) => stage.next(caller, errand),
            CallStage::Moving(errand, stage) => stage.next(caller, errand),
            CallStage::Getting(located, get, stage) => stage.next(caller, located, get),
            CallStage::Putting(located, put, stage) => stage.next(caller, slot, located, put),
            CallStage::Allocating(ref stage) => stage.next(caller),
            CallStage::Asking(stage) => stage.next(&caller.shape),
            CallStage::Leaving(stage) => stage.next(caller),
            CallStage::Ended(_) => Step::Ended,
        }
    }
}
