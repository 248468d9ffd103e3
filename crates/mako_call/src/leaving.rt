//! The stages of an attempt that leaves the gates at which it arrived.

ghost use Rattle.std.specs.Prelude.{◌≡◌};
ghost use Rattle.mako_shape.specs.Places.{total};
ghost use Rattle.mako_step.specs.Acts.{IsWithin};
ghost use Rattle.mako_call.specs.Callers.{IsCaller};
ghost use Rattle.mako_call.specs.Leaving as leaving;
ghost use Rattle.mako_call.specs.Calls.{decided, leave_decided, newly};
ghost use Rattle.mako_call.specs.Leaving.{leave_next, leave_fed, LeaveIsKnown};
ghost use Rattle.mako_call.specs.Standings.{stage_at};

use crate::caller::Caller;
use crate::standing::Standing;
use mako_model::{Attempt, Pause, Reply};
use mako_step::Step;

/// Where an attempt stands that leaves the gates at which it arrived.
#[derive(Clone, Copy)]
pub enum LeaveStage {
    /// Its own gate was shut when it arrived and found this word; it takes the arrival back.
    Refused(u64),
    /// The tablet's gate was shut when it arrived there and found this word; it takes the arrival back.
    TurnedAway { tablet: u32, word: u64 },
    /// It leaves the tablet, and then its own gate, and comes to this.
    FromTablet { tablet: u32, outcome: Attempt },
    /// It leaves its own gate, and comes to this.
    FromOwn(Attempt),
}

impl LeaveStage {
    #[inline(always)]
    pub(crate) fn next(self, caller: &Caller) -> Step
        requires caller { IsCaller caller.now }
        requires known { LeaveIsKnown caller.now.shape self }
        ensures next { result ≡ leave_next caller.now self }
        ensures within { IsWithin (total caller.now.shape) result }
    {
        match self {
            LeaveStage::Refused(_) | LeaveStage::FromOwn(_) => Step::sub(caller.gate(), 1),
            LeaveStage::TurnedAway { tablet, .. } | LeaveStage::FromTablet { tablet, .. } => {
                Step::sub(caller.shape.tablet_gate(tablet), 1)
            }
        }
    }
}

impl Standing {
    /// Goes where this stage of a last attempt, or of another, leads.
    #[inline(always)]
    #[tactic(auto, using(crate::proofs::Telling::same_tells_nothing))]
    pub(crate) fn feed_leaving(&mut self, stage: LeaveStage, last: bool) -> bool
        ensures fed { stage_at self.new ≡ leave_fed last stage }
        ensures told { result ≡ newly (leave_decided stage) (decided (stage_at self.new)) }
    {
        match stage {
            LeaveStage::Refused(word) => {
                *self = Standing::Ended(Attempt::Pause(Pause::Stopped(word)));
            }
            LeaveStage::TurnedAway { tablet, word } => {
                *self = leaving(Attempt::Pause(Pause::Shut { tablet, word }));
            }
            LeaveStage::FromTablet { outcome, .. } => *self = leaving(outcome),
            LeaveStage::FromOwn(Attempt::Full) if last => {
                *self = Standing::Ended(Attempt::Answer(Reply::Full));
                return true;
            }
            LeaveStage::FromOwn(outcome) => *self = Standing::Ended(outcome),
        }
        false
    }
}

/// It leaves its own gate, and comes to this.
pub(crate) fn leaving(outcome: Attempt) -> Standing
    ensures { stage_at result ≡ leaving.leaving outcome }
{
    Standing::LeavingOwn(outcome)
}

/// It leaves the tablet and its own gate, and comes to this.
pub(crate) fn leaving_tablet(tablet: u32, outcome: Attempt) -> Standing
    ensures { stage_at result ≡ leaving.leaving_tablet tablet outcome }
{
    Standing::LeavingTablet { tablet, outcome }
}

/// It was answered at its own gate alone, and leaves.
pub(crate) fn answered(reply: Reply) -> Standing
    ensures { stage_at result ≡ leaving.answered reply }
{
    leaving(Attempt::Answer(reply))
}

/// It was answered in the tablet, and leaves.
pub(crate) fn answered_at(tablet: u32, reply: Reply) -> Standing
    ensures { stage_at result ≡ leaving.answered_at tablet reply }
{
    leaving_tablet(tablet, Attempt::Answer(reply))
}
