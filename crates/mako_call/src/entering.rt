//! The stages of an attempt that enters the tablet of its object.

ghost use Rattle.std.specs.Prelude.{◌≡◌, None};
ghost use Rattle.mako_shape.specs.Places.{total};
ghost use Rattle.mako_step.specs.Acts.{IsWithin};
ghost use Rattle.mako_call.specs.Callers.{IsCaller};
ghost use Rattle.mako_call.specs.Objects.{ErrandIsKnown};
ghost use Rattle.mako_call.specs.Entering.{enter_next, enter_fed, EnterFits, EnterIsKnown};
ghost use Rattle.mako_call.specs.Calls.{decided, newly};
ghost use Rattle.mako_call.specs.Standings.{stage_at};

use crate::caller::Caller;
use crate::leaving::LeaveStage;
use crate::moving::MoveStage;
use crate::object::{Errand, Located};
use crate::standing::Standing;
use crate::words::entry_of;
use mako_record::is_in_region;
use mako_step::Step;
use mako_words::{EntryWord, GateWord};

/// Where an attempt stands that enters the tablet of its object.
#[derive(Clone, Copy)]
pub enum EnterStage {
    /// Next it arrives at the tablet's gate.
    Arriving,
    LoadingEntry,
    /// It holds the object's entry.
    LoadingHome(EntryWord),
}

impl EnterStage {
    #[inline(always)]
    pub(crate) fn next(self, caller: &Caller, errand: Errand) -> Step
        requires caller { IsCaller caller.now }
        requires errand { ErrandIsKnown caller.now.shape errand }
        ensures next { result ≡ enter_next caller.now errand self }
        ensures within { IsWithin (total caller.now.shape) result }
    {
        let entry = errand.object.entry;
        match self {
            EnterStage::Arriving => Step::add(caller.shape.tablet_gate(caller.tablet_of(entry)), 1),
            EnterStage::LoadingEntry => Step::load(caller.shape.entry(entry)),
            EnterStage::LoadingHome(_) => Step::load(caller.shape.home(caller.tablet_of(entry))),
        }
    }
}

impl Standing {
    /// Goes where this stage leads that found this word.
    #[inline(always)]
    pub(crate) fn feed_entering(
        &mut self,
        caller: &Caller,
        errand: Errand,
        stage: EnterStage,
        before: u64,
    ) -> bool
        requires caller { IsCaller caller.now }
        requires errand { ErrandIsKnown caller.now.shape errand }
        requires known { EnterIsKnown caller.now.shape stage }
        requires fits { EnterFits caller.now.shape stage before }
        ensures fed { stage_at self.new ≡ enter_fed caller.now.shape errand stage before }
        ensures told { result ≡ newly None (decided (stage_at self.new)) }
    {
        match stage {
            EnterStage::Arriving if before >= GateWord::SHUT => {
                let tablet = caller.tablet_of(errand.object.entry);
                let word = before;
                *self = Standing::TurnedAway { tablet, word };
            }
            EnterStage::Arriving => *self = Standing::LoadingEntry(errand),
            EnterStage::LoadingEntry => *self = Standing::LoadingHome(errand, entry_of(before)),
            EnterStage::LoadingHome(entry) => {
                let home = before as u32;
                if is_in_region(&caller.shape, home, entry.address) {
                    self.reach(errand, entry.address);
                } else {
                    *self = Standing::Moving(errand, MoveStage::TakingTurn { home });
                }
            }
        }
        false
    }
}
