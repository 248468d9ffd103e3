//! The stages of a `put` at its object's record, with the barrier: while the servers trace, a name that
//! is about to be overwritten is recorded first (the usual snapshot-at-the-beginning scheme).

ghost use Rattle.std.specs.Prelude.{◌≡◌, ◌<◌};
ghost use Rattle.mako_shape.specs.Places.{total};
ghost use Rattle.mako_step.specs.Acts.{IsWithin};
ghost use Rattle.mako_call.specs.Callers.{IsCaller};
ghost use Rattle.mako_call.specs.Objects.{LocatedIsKnown};
ghost use Rattle.mako_call.specs.Putting.{put_next, put_fed, PutIsKnown};
ghost use Rattle.mako_call.specs.Calls.{StageIsKnown, StageFits, tells};
ghost use Rattle.mako_call.specs.Standings.{stage_at};

use crate::caller::Caller;
use crate::leaving::{answered_at, leaving_tablet};
use crate::object::{Located, Put};
use crate::standing::Standing;
use crate::words::value_of;
use mako_model::{Attempt, Pause, Reply};
use mako_step::Step;
use mako_words::{Name, PhaseWord, Value};

/// Where a `put` stands at its object's record. While the servers trace, the name that it overwrites is recorded first:
/// the usual scheme of a snapshot at the beginning.
#[derive(Clone, Copy)]
pub enum PutStage {
    LoadingHeader,
    /// While the servers trace, it loads what the field holds.
    LoadingOld,
    /// The field holds this name. It looks whether its own barrier slot is empty.
    LookingAtBarrier(Name),
    /// It stores the name into the slot.
    StoringBarrier(Name),
    StoringField,
}

impl PutStage {
    /// The slot of the barrier ring is the one at which the next name goes in.
    pub(crate) fn next(self, caller: &Caller, slot: u32, located: Located, put: Put) -> Step
        requires caller { IsCaller caller.now }
        requires slot { slot < caller.now.shape.ring }
        requires located { LocatedIsKnown caller.now.shape located }
        requires known { PutIsKnown caller.now.shape located put self }
        ensures next { result ≡ put_next caller.now slot located put self }
        ensures within { IsWithin (total caller.now.shape) result }
    {
        let field = located.address + 1 + u32::from(put.field);
        match self {
            PutStage::LoadingHeader => Step::load(located.address),
            PutStage::LoadingOld => Step::load(field),
            PutStage::LookingAtBarrier(_) => {
                Step::load(caller.shape.barrier(caller.mutator, slot))
            }
            PutStage::StoringBarrier(old) => Step::store(
                caller.shape.barrier(caller.mutator, slot),
                Value::Ref(old).pack(),
            ),
            PutStage::StoringField => Step::store(field, put.value.pack()),
        }
    }
}

impl Standing {
    ghost use Rattle.mako_call.specs.declared.standing.Standing.TheVariants as standings;
    ghost use Rattle.mako_call.specs.declared.object.Located.{Located};
    ghost use Rattle.mako_call.specs.declared.object.Put.{Put};
    ghost use Rattle.mako_call.specs.declared.putting.PutStage.{PutStage};

    /// Goes on with this word, where it stores a field.
    pub(crate) fn feed_putting(&mut self, caller: &Caller, slot: u32, before: u64) -> bool
        requires caller { IsCaller caller.now }
        requires known { StageIsKnown caller.now (stage_at self.old) }
        requires fits { StageFits caller.now.shape (stage_at self.old) before }
        ensures { (located : Located) (put : Put) (stage : PutStage) → self.old ≡ standings.Putting located put stage →
            (stage_at self.new ≡ put_fed caller.now.shape slot located put stage before)
            × (result ≡ tells (stage_at self.old) (stage_at self.new)) }
    {
        let Standing::Putting(located, put, stage) = self else {
            return false;
        };
        let entry = located.object.entry;
        match *stage {
            PutStage::LoadingHeader if u64::from(put.field) >= before => {
                *self = answered_at(caller.tablet_of(entry), Reply::NoField);
                return true;
            }
            PutStage::LoadingHeader => match put.phase {
                PhaseWord::Trace(_) => *stage = PutStage::LoadingOld,
                _ => *stage = PutStage::StoringField,
            },
            PutStage::LoadingOld => match value_of(before) {
                Value::Ref(old) => *stage = PutStage::LookingAtBarrier(old),
                _ => *stage = PutStage::StoringField,
            },
            PutStage::LookingAtBarrier(old) if before == 0 => {
                *stage = PutStage::StoringBarrier(old);
            }
            PutStage::LookingAtBarrier(_) => {
                let barrier = Pause::Barrier { slot, word: before };
                *self = leaving_tablet(caller.tablet_of(entry), Attempt::Pause(barrier));
            }
            PutStage::StoringBarrier(_) => *stage = PutStage::StoringField,
            PutStage::StoringField => {
                *self = answered_at(caller.tablet_of(entry), Reply::Done);
                return true;
            }
        }
        false
    }
}
