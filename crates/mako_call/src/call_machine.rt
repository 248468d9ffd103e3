//! An attempt of a call, as a machine.

ghost use Rattle.std.specs.Prelude.{◌≡◌, ◌<◌, ◌≤◌, false, is_some, IfSome, Some, None};
ghost use Rattle.std.specs.Prelude.{◌↔◌, IsTrue};
ghost use Rattle.mako_shape.specs.Places.{total};
ghost use Rattle.mako_step.specs.Acts.{finds, words_stepped, IsWithin};
ghost use Rattle.mako_step.specs.Machines.{CanStep, IsAct};
ghost use Rattle.mako_step.specs.declared.step.Step.TheVariants as steps;
ghost use Rattle.mako_call.specs.Agreeing.{AskedFits};
ghost use Rattle.mako_call.specs.Keeping.{KeepFits};
ghost use Rattle.mako_call.specs.Callers.{CallFits};
ghost use Rattle.mako_call.specs.Calls as calls;

use crate::allocating::AllocStage;
use crate::asking::AskStage;
use crate::call_stage::CallStage;
use crate::caller::Caller;
use crate::entering::EnterStage;
use crate::fitting::is_gate;
use crate::getting::GetStage;
use crate::leaving::LeaveStage;
use crate::moving::MoveStage;
use crate::putting::PutStage;
use crate::rooting::RootStage;
use crate::standing::{Standing, with_stages};
use mako_model::{Attempt, Call, Event, Pause, Point, Reply};
use mako_shape::Shape;
use mako_step::{Machine, Step, Words};
use std::marker::Model;

/// Makes the step of an attempt, in an arm of its own for each stage or group of stages.
macro_rules! step_by_standing {
    ([$attempt:expr, $words:expr] $([$($standing:tt)+] [$($stage:tt)+])+) => {
        match $attempt.standing {
            $(Standing::$($standing)+ => $attempt.step_at($($stage)+, $words),)+
        }
    };
}

/// What a mutator keeps from one attempt to the next.
#[derive(Clone, Copy, Debug, PartialEq, Eq)]
pub struct Keep {
    /// The cycle that a `collect` has asked for. Any other call forgets it.
    pub asked: Option<u32>,
    /// The slot of the mutator's barrier ring into which the next name goes.
    pub barrier_at: u64,
}

/// What a step does to its call and to its attempt.
#[derive(Clone, Copy, Debug, PartialEq, Eq)]
pub struct StepTaken {
    /// Whether it decides the call.
    pub decides: bool,
    /// Whether it ends the attempt.
    pub ends: bool,
}

/// What a step tells that decides a call with this reply.
fn answered(mutator: u32, call: Call, reply: Option<Reply>) -> Event
    requires { mutator < 256 }
    ensures { result ≡ calls.event_by mutator call None reply }
{
    match reply {
        Some(reply) => Event::Answered(Point::Did {
            mutator: mutator as u8,
            call,
            reply,
        }),
        None => Event::Nothing,
    }
}

/// One attempt of a call. It comes to an answer, whose point is in the history then, to a pause after
/// which the call is to be attempted again, or to the finding that there is no room.
#[derive(Clone, Copy)]
pub struct CallMachine {
    caller: Caller,
    call: Call,
    last: bool,
    slot: u32,
    standing: Standing,
}

impl Model for CallMachine {
    ghost use Rattle.mako_call.specs.Calls.{Calling, IsKnown};
    ghost use Rattle.mako_call.specs.Standings.{calling_in, inside_of, inside_again};

    ghost Value = { Calling };

    ghost view = { calling_in };

    ghost invariant = { λ m. IsKnown (calling_in m) };

    ghost inverse = { inside_of };

    ghost inverse_ok = { λ m known. inside_again m };
}

impl CallMachine {
    ghost use Rattle.mako_call.specs.declared.call_stage.CallStage.TheVariants as stages;

    /// An attempt of the mutator's call. Where it is the last, a `new` that finds no room is answered. `keep` is what
    /// the attempt before came to, or at first no cycle and the slot 0.
    pub fn new(shape: Shape, mutator: u32, call: Call, last: bool, keep: Keep) -> CallMachine
        requires mutator { mutator < shape.mutators }
        requires call { CallFits shape call }
        requires asked { AskedFits shape keep.asked }
        requires barrier { keep.barrier_at < shape.ring }
        ensures { result ≡ calls.opening (record {
          shape = shape;
          mutator = mutator;
        }) call last keep.asked keep.barrier_at }
    {
        let _numbers = shape.numbers();
        CallMachine {
            caller: Caller { shape, mutator },
            call,
            last,
            slot: keep.barrier_at as u32,
            standing: Standing::first(call, keep.asked),
        }
    }

    /// The same mutator's attempt of this call, in the place of the one that has ended.
    pub fn begin(&mut self, call: Call, last: bool, keep: Keep)
        requires call { CallFits self.old.caller.shape call }
        requires asked { AskedFits self.old.caller.shape keep.asked }
        requires barrier { keep.barrier_at < self.old.caller.shape.ring }
        ensures { self.new ≡ calls.opening self.old.caller call last keep.asked keep.barrier_at }
    {
        self.call = call;
        self.last = last;
        self.slot = keep.barrier_at as u32;
        self.standing = Standing::first(call, keep.asked);
    }

    /// Whether it can go on with this word. A word that is not read may be any.
    pub fn can_go_on(&self, before: u64) -> bool
        ensures { IsTrue result ↔ calls.Fits self.now before }
    {
        let shape = &self.caller.shape;
        match self.standing.stage() {
            CallStage::Arriving => is_gate(before),
            CallStage::Rooting(stage) => stage.can_go_on(shape, before),
            CallStage::Entering(_, stage) => stage.can_go_on(shape, before),
            CallStage::Moving(_, stage) => stage.can_go_on(shape, before),
            CallStage::Getting(located, _, stage) => stage.can_go_on(shape, located, before),
            CallStage::Putting(located, _, stage) => stage.can_go_on(shape, located, before),
            CallStage::Allocating(stage) => stage.can_go_on(shape, before),
            CallStage::Asking(stage) => stage.can_go_on(shape, before),
            CallStage::Leaving(_) | CallStage::Ended(_) => true,
        }
    }

    /// What the attempt came to, and what is kept for the next one.
    pub fn result(&self) -> (Attempt, Keep)
        requires { calls.next_of self.now ≡ steps.Ended }
        ensures outcome { self.now.stage ≡ stages.Ended result.0 }
        ensures keep { result.1 ≡ calls.kept self.now result.0 }
        ensures asked { AskedFits self.now.caller.shape result.1.asked }
        ensures barrier { result.1.barrier_at < self.now.caller.shape.ring }
    {
        let Standing::Ended(outcome) = self.standing else {
            unreachable!()
        };
        (outcome, self.keep(outcome))
    }

    /// Whether it waits for a cycle that has not finished by this word of the phase. The next attempt is then the same.
    pub fn waits_on(&self, before: u64) -> bool
        requires { calls.Fits self.now before }
        ensures waits { result ≡ calls.stage_waits self.now.stage before }
        ensures again { IsTrue result → calls.ComesAgain self.now before }
    {
        match self.standing {
            Standing::Asking(stage) => stage.waits_on(&self.caller.shape, before),
            _ => false,
        }
    }

    /// Whether it has ended.
    pub fn has_ended(&self) -> bool
        ensures { result ≡ is_some (calls.outcome_in self.now.stage) }
    {
        matches!(self.standing, Standing::Ended(_))
    }

    /// What it came to and keeps, where it has ended.
    pub fn outcome(&self) -> Option<(Attempt, Keep)>
        ensures none { result ≡ None → calls.outcome_in self.now.stage ≡ None }
        ensures some { IfSome result (λ r. (calls.outcome_in self.now.stage ≡ Some r.0)
            × (r.1 ≡ calls.kept self.now r.0) × KeepFits self.now.caller.shape r.1) }
    {
        match self.standing {
            Standing::Ended(outcome) => Some((outcome, self.keep(outcome))),
            _ => None,
        }
    }

    /// The call, and whether this is its last attempt.
    pub fn of(&self) -> (Call, bool)
        ensures { result ≡ (self.now.call, self.now.last) }
    {
        (self.call, self.last)
    }

    /// Makes its next step on the words. The stages of the commonest calls are known where this is compiled, so that
    /// the act of a stage and what follows stand side by side, and one jump finds both.
    #[inline(always)]
    pub fn step<W: Words>(&mut self, words: &mut W) -> StepTaken
        requires acts { IsAct (calls.next_of self.old) }
        requires can { CanStep (calls.next_of self.old) (W.words words.old) (calls.Fits self.old) }
        ensures words { W.words words.new ≡ words_stepped (calls.next_of self.old) (W.words words.old) }
        ensures fed { self.new ≡ calls.fed self.old (finds (calls.next_of self.old) (W.words words.old)) }
        ensures decides { result.decides ≡ calls.tells self.old.stage self.new.stage }
        ensures ends { result.ends ≡ is_some (calls.outcome_in self.new.stage) }
    {
        with_stages!(step_by_standing, self, words)
    }

    /// Makes the step of this stage, its own.
    #[inline(always)]
    fn step_at<W: Words>(&mut self, stage: CallStage, words: &mut W) -> StepTaken
        requires own { self.old.stage ≡ stage }
        requires acts { IsAct (calls.next_of self.old) }
        requires can { CanStep (calls.next_of self.old) (W.words words.old) (calls.Fits self.old) }
        ensures words { W.words words.new ≡ words_stepped (calls.next_of self.old) (W.words words.old) }
        ensures fed { self.new ≡ calls.fed self.old (finds (calls.next_of self.old) (W.words words.old)) }
        ensures decides { result.decides ≡ calls.tells self.old.stage self.new.stage }
        ensures ends { result.ends ≡ is_some (calls.outcome_in self.new.stage) }
    {
        let Step::Do(act) = stage.next(&self.caller, self.slot) else {
            unreachable!()
        };
        let before = words.act(act);
        let decides = self.feed_at(stage, before);
        let ends = self.has_ended();
        StepTaken { decides, ends }
    }

    /// Goes where this stage, its own, leads that found this word. Whether the call is decided with it.
    #[inline(always)]
    fn feed_at(&mut self, stage: CallStage, before: u64) -> bool
        requires own { self.old.stage ≡ stage }
        requires acts { IsAct (calls.next_of self.old) }
        requires fits { calls.Fits self.old before }
        ensures fed { self.new ≡ calls.fed self.old before }
        ensures told { result ≡ calls.tells self.old.stage self.new.stage }
    {
        let slot = self.slot_after(&stage);
        let tells = self.standing.feed(
            stage,
            &self.caller,
            self.call,
            self.last,
            self.slot,
            before,
        );
        self.slot = slot;
        tells
    }

    /// What the step tells that has just decided its call.
    pub fn event(&self) -> Event
        ensures { result ≡ calls.event_by self.now.caller.mutator self.now.call None (calls.decided self.now.stage) }
    {
        answered(
            self.caller.mutator,
            self.call,
            self.standing.stage().decided(),
        )
    }

    /// Whether its next step may be made by `step`, with an act to make. A look for the end of a cycle may not, since
    /// `waits_on` spares its attempt the end.
    #[inline(always)]
    pub fn steps_at_once(&self) -> bool
        ensures { IsTrue result → IsAct (calls.next_of self.now) }
    {
        !matches!(self.standing, Standing::Asking(_) | Standing::Ended(_))
    }

    /// What is kept after this outcome.
    fn keep(&self, outcome: Attempt) -> Keep
        ensures { result ≡ calls.kept self.now outcome }
    {
        let asked = match (self.call, outcome) {
            (Call::Collect, Attempt::Pause(Pause::Cycle { wanted, .. })) => Some(wanted),
            _ => None,
        };
        Keep {
            asked,
            barrier_at: u64::from(self.slot),
        }
    }

    /// The slot for the next name after this stage, which rises where a name is stored.
    #[inline(always)]
    fn slot_after(&self, stage: &CallStage) -> u32
        ensures { result ≡ calls.slot_after self.now.caller.shape self.now.slot stage.now }
    {
        match *stage {
            CallStage::Putting(_, _, PutStage::StoringBarrier(_)) => {
                let next = self.slot + 1;
                if next == self.caller.shape.numbers().ring {
                    0
                } else {
                    next
                }
            }
            _ => self.slot,
        }
    }
}

impl Machine for CallMachine {
    type Event = Event;

    ghost use Rattle.mako_call.specs.Calls as calls;

    ghost next_of = { calls.next_of };

    ghost Fits = { calls.Fits };

    ghost fed = { calls.fed };

    ghost event_of = { calls.event_of };

    ghost is_waiting = { λ _ _. false };

    ghost is_renewed = { λ _ _. false };

    ghost rank = { calls.rank };

    fn next(&self) -> Step
        ensures next { result ≡ calls.next_of self.now }
        ensures within { IsWithin (total self.now.caller.shape) result }
    {
        match self.standing {
            // a look that waits is made again and again
            Standing::Asking(stage) => stage.next(&self.caller.shape),
            standing => standing.stage().next(&self.caller, self.slot),
        }
    }

    fn waits(&self, _before: u64) -> bool {
        false
    }

    #[inline(always)]
    fn feed(&mut self, before: u64) -> Event {
        let tells = self.feed_at(self.standing.stage(), before);
        if !tells {
            return Event::Nothing;
        }
        self.event()
    }
}
