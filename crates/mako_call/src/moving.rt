//! The stages of an attempt that moves its object's record into the tablet's home.

ghost use Rattle.std.specs.Prelude.{◌≡◌};
ghost use Rattle.mako_shape.specs.Places.{total};
ghost use Rattle.mako_step.specs.Acts.{IsWithin};
ghost use Rattle.mako_call.specs.Callers.{IsCaller};
ghost use Rattle.mako_call.specs.Objects.{ErrandIsKnown};
ghost use Rattle.mako_call.specs.Moving.{move_next, move_fed, MoveIsKnown};
ghost use Rattle.mako_call.specs.Calls.{StageIsKnown, StageFits, tells};
ghost use Rattle.mako_call.specs.Standings.{stage_at};

use crate::caller::Caller;
use crate::leaving::leaving_tablet;
use crate::object::Errand;
use crate::standing::Standing;
use crate::words::entry_of;
use mako_model::{Attempt, Pause};
use mako_record::{Copier, is_in_region};
use mako_step::{Machine, Step};

/// Where an attempt stands that moves its object's record into the tablet's home.
#[derive(Clone, Copy)]
pub enum MoveStage {
    /// Next it tries to take the tablet's turn. The home is the tablet's region.
    TakingTurn { home: u32 },
    /// It holds the turn, and loads the entry once more.
    LoadingEntry { home: u32 },
    Copying(Copier),
    /// It gives the turn back. The record lies at this address.
    GivingTurn { address: u32 },
}

impl MoveStage {
    pub(crate) fn next(self, caller: &Caller, errand: Errand) -> Step
        requires caller { IsCaller caller.now }
        requires errand { ErrandIsKnown caller.now.shape errand }
        requires known { MoveIsKnown caller.now.shape self }
        ensures next { result ≡ move_next caller.now errand self }
        ensures within { IsWithin (total caller.now.shape) result }
    {
        let entry = errand.object.entry;
        match self {
            MoveStage::TakingTurn { .. } => Step::exchange(
                caller.shape.turn(caller.tablet_of(entry)),
                0,
                u64::from(caller.mutator) + 1,
            ),
            MoveStage::LoadingEntry { .. } => Step::load(caller.shape.entry(entry)),
            MoveStage::Copying(copier) => copier.next(),
            MoveStage::GivingTurn { .. } => {
                Step::store(caller.shape.turn(caller.tablet_of(entry)), 0)
            }
        }
    }
}

impl Standing {
    ghost use Rattle.mako_call.specs.declared.standing.Standing.TheVariants as standings;
    ghost use Rattle.mako_call.specs.declared.moving.MoveStage.{MoveStage};
    ghost use Rattle.mako_call.specs.declared.object.Errand.{Errand};

    /// Goes on with this word, where it moves its object's record. Few attempts do so, and the others
    /// are faster where this stands apart.
    #[inline(never)]
    pub(crate) fn feed_moving(&mut self, caller: &Caller, before: u64) -> bool
        requires caller { IsCaller caller.now }
        requires known { StageIsKnown caller.now (stage_at self.old) }
        requires fits { StageFits caller.now.shape (stage_at self.old) before }
        ensures { (errand : Errand) (stage : MoveStage) → self.old ≡ standings.Moving errand stage →
            (stage_at self.new ≡ move_fed caller.now.shape errand stage before)
            × (result ≡ tells (stage_at self.old) (stage_at self.new)) }
    {
        let Standing::Moving(errand, stage) = self else {
            return false;
        };
        let errand = *errand;
        match stage {
            MoveStage::TakingTurn { home } if before == 0 => {
                *stage = MoveStage::LoadingEntry { home: *home };
            }
            MoveStage::TakingTurn { .. } => {
                let tablet = caller.tablet_of(errand.object.entry);
                let word = before;
                *self = leaving_tablet(tablet, Attempt::Pause(Pause::Busy { tablet, word }));
            }
            MoveStage::LoadingEntry { home } => {
                let entry = entry_of(before);
                *stage = if is_in_region(&caller.shape, *home, entry.address) {
                    let address = entry.address;
                    MoveStage::GivingTurn { address }
                } else {
                    MoveStage::Copying(Copier::new(caller.shape, errand.object.entry, entry, *home))
                };
            }
            MoveStage::Copying(copier) => {
                copier.feed(before);
                if let Step::Ended = copier.next() {
                    let address = copier.result();
                    *stage = MoveStage::GivingTurn { address };
                }
            }
            MoveStage::GivingTurn { address } => {
                let address = *address;
                self.reach(errand, address);
            }
        }
        false
    }
}
