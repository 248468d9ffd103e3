//! A stage as an attempt keeps it.

ghost use Rattle.std.specs.Prelude.{◌≡◌, None};
ghost use Rattle.mako_call.specs.Agreeing.{Arrives, StageOf};
ghost use Rattle.mako_call.specs.Callers.{IsCaller};
ghost use Rattle.mako_call.specs.Calls as calls;
ghost use Rattle.mako_call.specs.Calls.{StageIsKnown, StageFits};
ghost use Rattle.mako_call.specs.Standings.{stage_at};

use crate::allocating::AllocStage;
use crate::asking::AskStage;
use crate::call_stage::CallStage;
use crate::caller::Caller;
use crate::entering::EnterStage;
use crate::getting::GetStage;
use crate::leaving::LeaveStage;
use crate::moving::MoveStage;
use crate::object::{Errand, Get, Located, Put};
use crate::putting::PutStage;
use crate::rooting::RootStage;
use mako_model::{Attempt, Call};
use mako_words::{EntryWord, GateWord, Name, Value};

/// Gives a macro the list of what an attempt keeps, each with the stage or the group of stages that it stands for.
macro_rules! with_stages {
    ($then:ident, $($given:tt)+) => {
        $then! {
            [$($given)+]
            [Arriving] [CallStage::Arriving]
            [StoringNumber { root, number }] [CallStage::Rooting(RootStage::StoringNumber { root, number })]
            [StoringNull { root }] [CallStage::Rooting(RootStage::StoringNull { root })]
            [LoadingCopied { to, from }] [CallStage::Rooting(RootStage::LoadingCopied { to, from })]
            [StoringCopied { to, value }] [CallStage::Rooting(RootStage::StoringCopied { to, value })]
            [LoadingShown { root }] [CallStage::Rooting(RootStage::LoadingShown { root })]
            [LoadingSource { to, from, field }] [CallStage::Rooting(RootStage::LoadingSource { to, from, field })]
            [LoadingTarget { to, field, from }] [CallStage::Rooting(RootStage::LoadingTarget { to, field, from })]
            [LoadingValue { object, field, from }] [CallStage::Rooting(RootStage::LoadingValue { object, field, from })]
            [LoadingPhase { object, field, value }]
            [CallStage::Rooting(RootStage::LoadingPhase { object, field, value })]
            [ArrivingAtTablet(errand)] [CallStage::Entering(errand, EnterStage::Arriving)]
            [LoadingEntry(errand)] [CallStage::Entering(errand, EnterStage::LoadingEntry)]
            [LoadingHome(errand, entry)] [CallStage::Entering(errand, EnterStage::LoadingHome(entry))]
            [LoadingHeader(located, get)] [CallStage::Getting(located, get, GetStage::LoadingHeader)]
            [LoadingField(located, get)] [CallStage::Getting(located, get, GetStage::LoadingField)]
            [StoringRoot(located, get, value)] [CallStage::Getting(located, get, GetStage::StoringRoot(value))]
            [Refused(word)] [CallStage::Leaving(LeaveStage::Refused(word))]
            [TurnedAway { tablet, word }] [CallStage::Leaving(LeaveStage::TurnedAway { tablet, word })]
            [LeavingTablet { tablet, outcome }] [CallStage::Leaving(LeaveStage::FromTablet { tablet, outcome })]
            [LeavingOwn(outcome)] [CallStage::Leaving(LeaveStage::FromOwn(outcome))]
            [Moving(errand, stage)] [CallStage::Moving(errand, stage)]
            [Putting(located, put, stage)] [CallStage::Putting(located, put, stage)]
            [Allocating(stage)] [CallStage::Allocating(stage)]
            [Asking(stage)] [CallStage::Asking(stage)]
            [Ended(outcome)] [CallStage::Ended(outcome)]
        }
    };
}

pub(crate) use with_stages;

/// A stage as an attempt keeps it: those of the commonest calls stand side by side, so that one jump finds each of
/// them, where their groups would want two. The others stand in their groups.
#[derive(Clone, Copy)]
pub(crate) enum Standing {
    Arriving,
    StoringNumber {
        root: u8,
        number: u32,
    },
    StoringNull {
        root: u8,
    },
    LoadingCopied {
        to: u8,
        from: u8,
    },
    StoringCopied {
        to: u8,
        value: Value,
    },
    LoadingShown {
        root: u8,
    },
    LoadingSource {
        to: u8,
        from: u8,
        field: u8,
    },
    LoadingTarget {
        to: u8,
        field: u8,
        from: u8,
    },
    LoadingValue {
        object: Name,
        field: u8,
        from: u8,
    },
    LoadingPhase {
        object: Name,
        field: u8,
        value: Value,
    },
    ArrivingAtTablet(Errand),
    LoadingEntry(Errand),
    LoadingHome(Errand, EntryWord),
    LoadingHeader(Located, Get),
    LoadingField(Located, Get),
    StoringRoot(Located, Get, Value),
    Refused(u64),
    TurnedAway {
        tablet: u32,
        word: u64,
    },
    LeavingTablet {
        tablet: u32,
        outcome: Attempt,
    },
    LeavingOwn(Attempt),
    Moving(Errand, MoveStage),
    Putting(Located, Put, PutStage),
    Allocating(AllocStage),
    Asking(AskStage),
    Ended(Attempt),
}

macro_rules! stage_at {
    ([$given:expr] $([$($standing:tt)+] [$($stage:tt)+])+) => {
        match $given {
            $(Standing::$($standing)+ => $($stage)+,)+
        }
    };
}

impl Standing {
    /// At the first stage: a `collect` goes on where it has asked for a cycle, and every other call arrives at the own
    /// gate.
    pub(crate) fn first(call: Call, asked: Option<u32>) -> Standing
        ensures { stage_at result ≡ calls.first_stage call asked }
    {
        match (call, asked) {
            (Call::Collect, None) => Standing::Asking(AskStage::LoadingPhase),
            (Call::Collect, Some(cycle)) => Standing::Asking(AskStage::Awaiting { cycle }),
            _ => Standing::Arriving,
        }
    }

    /// The stage that is kept so.
    #[inline(always)]
    pub(crate) fn stage(self) -> CallStage
        ensures { result ≡ stage_at self }
    {
        with_stages!(stage_at, self)
    }

    /// Goes where this stage, its own, leads that found this word. Whether the call is decided with it.
    #[inline(always)]
    #[tactic(auto, using(crate::proofs::Telling::same_tells_nothing))]
    pub(crate) fn feed(
        &mut self,
        stage: CallStage,
        caller: &Caller,
        call: Call,
        last: bool,
        slot: u32,
        before: u64,
    ) -> bool
        requires caller { IsCaller caller.now }
        requires own { stage_at self.old ≡ stage }
        requires known { StageIsKnown caller.now stage }
        requires agrees { StageOf caller.now.shape call stage }
        requires fits { StageFits caller.now.shape stage before }
        ensures fed { stage_at self.new ≡ calls.stage_fed caller.now call last slot stage before }
        ensures told { result ≡ calls.tells stage (stage_at self.new) }
    {
        match stage {
            CallStage::Arriving if before >= GateWord::SHUT => {
                *self = Standing::Refused(before);
                false
            }
            CallStage::Arriving => self.admit(call),
            CallStage::Rooting(stage) => self.feed_rooting(caller, stage, before),
            CallStage::Entering(errand, stage) => self.feed_entering(caller, errand, stage, before),
            CallStage::Moving(_, _) => self.feed_moving(caller, before),
            CallStage::Getting(located, get, stage) => {
                self.feed_getting(caller, located, get, stage, before)
            }
            CallStage::Putting(_, _, _) => self.feed_putting(caller, slot, before),
            CallStage::Allocating(_) => self.feed_allocating(caller, before),
            CallStage::Asking(_) => self.feed_asking(&caller.shape, before),
            CallStage::Leaving(stage) => self.feed_leaving(stage, last),
            CallStage::Ended(_) => false,
        }
    }

    /// It does what the call does once it is admitted at the own gate.
    fn admit(&mut self, call: Call) -> bool
        requires { Arrives call }
        ensures fed { stage_at self.new ≡ calls.admitted call }
        ensures told { result ≡ calls.newly None (calls.decided (stage_at self.new)) }
    {
        match call {
            Call::New { root, fields } => {
                *self = Standing::Allocating(AllocStage::LoadingPhase { root, fields });
            }
            Call::Num { root, value } => {
                let number = value;
                *self = Standing::StoringNumber { root, number };
            }
            Call::CopyRoot { to, from } => {
                *self = Standing::LoadingCopied { to, from };
            }
            Call::DropRoot { root } => *self = Standing::StoringNull { root },
            Call::Get { to, from, field } => {
                *self = Standing::LoadingSource { to, from, field };
            }
            Call::Put { to, field, from } => {
                *self = Standing::LoadingTarget { to, field, from };
            }
            Call::Show { root } => *self = Standing::LoadingShown { root },
            Call::Collect => unreachable!(),
        }
        false
    }
}
