//! The stages of a `get` at its object's record.

ghost use Rattle.std.specs.Prelude.{◌≡◌};
ghost use Rattle.mako_shape.specs.Places.{total};
ghost use Rattle.mako_step.specs.Acts.{IsWithin};
ghost use Rattle.mako_call.specs.Callers.{IsCaller};
ghost use Rattle.mako_call.specs.Objects.{LocatedIsKnown};
ghost use Rattle.mako_call.specs.Getting.{get_next, get_fed, GetFits, GetIsKnown};
ghost use Rattle.mako_call.specs.Calls.{decided, get_decided, newly};
ghost use Rattle.mako_call.specs.Standings.{stage_at};

use crate::caller::Caller;
use crate::leaving::answered_at;
use crate::object::{Get, Located};
use crate::standing::Standing;
use crate::words::value_of;
use mako_model::Reply;
use mako_step::Step;
use mako_words::Value;

/// Where a `get` stands at its object's record.
#[derive(Clone, Copy)]
pub enum GetStage {
    LoadingHeader,
    LoadingField,
    /// It stores what it read into its root.
    StoringRoot(Value),
}

impl GetStage {
    #[inline(always)]
    pub(crate) fn next(self, caller: &Caller, located: Located, get: Get) -> Step
        requires caller { IsCaller caller.now }
        requires located { LocatedIsKnown caller.now.shape located }
        requires known { GetIsKnown caller.now.shape located get self }
        ensures next { result ≡ get_next caller.now located get self }
        ensures within { IsWithin (total caller.now.shape) result }
    {
        match self {
            GetStage::LoadingHeader => Step::load(located.address),
            GetStage::LoadingField => Step::load(located.address + 1 + u32::from(get.field)),
            GetStage::StoringRoot(value) => Step::store(caller.root(get.to), value.pack()),
        }
    }
}

impl Standing {
    /// Goes where this stage leads that found this word.
    #[inline(always)]
    pub(crate) fn feed_getting(
        &mut self,
        caller: &Caller,
        located: Located,
        get: Get,
        stage: GetStage,
        before: u64,
    ) -> bool
        requires caller { IsCaller caller.now }
        requires located { LocatedIsKnown caller.now.shape located }
        requires known { GetIsKnown caller.now.shape located get stage }
        requires fits { GetFits caller.now.shape located stage before }
        ensures fed { stage_at self.new ≡ get_fed caller.now.shape located get stage before }
        ensures told { result ≡ newly (get_decided stage) (decided (stage_at self.new)) }
    {
        match stage {
            GetStage::LoadingHeader if u64::from(get.field) < before => {
                *self = Standing::LoadingField(located, get);
                false
            }
            GetStage::LoadingHeader => {
                let tablet = caller.tablet_of(located.object.entry);
                *self = answered_at(tablet, Reply::NoField);
                true
            }
            GetStage::LoadingField => {
                let read = value_of(before);
                *self = Standing::StoringRoot(located, get, read);
                true
            }
            GetStage::StoringRoot(value) => {
                let tablet = caller.tablet_of(located.object.entry);
                *self = answered_at(tablet, Reply::Value(value));
                false
            }
        }
    }
}
