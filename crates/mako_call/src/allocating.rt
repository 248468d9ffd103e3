//! The stages of a `new`.

ghost use Rattle.std.specs.Prelude.{◌≡◌, None};
ghost use Rattle.mako_shape.specs.Places.{total};
ghost use Rattle.mako_step.specs.Acts.{IsWithin};
ghost use Rattle.mako_call.specs.Callers.{IsCaller};
ghost use Rattle.mako_call.specs.Allocating.{new_next, new_fed, found_fed, NewIsKnown};
ghost use Rattle.mako_call.specs.Calls.{StageIsKnown, StageFits, decided, newly, tells};
ghost use Rattle.mako_call.specs.Standings.{stage_at};

use crate::asking::cycle_of;
use crate::caller::Caller;
use crate::leaving::{answered_at, leaving};
use crate::standing::Standing;
use crate::words::phase_of;
use mako_alloc::{Found, NewMachine};
use mako_model::{Attempt, Reply};
use mako_step::{Machine, Step};
use mako_words::{Name, Value};

/// Where a `new` stands.
#[derive(Clone, Copy)]
pub enum AllocStage {
    /// Next it loads the phase, for the cycle in which its object is born.
    LoadingPhase { root: u8, fields: u8 },
    /// It goes over the tablets, and makes the object.
    Searching { root: u8, search: NewMachine },
    /// The object of this name stands. It stores the name into its root.
    StoringRoot { root: u8, name: Name, tablet: u32 },
    /// It gives the tablet's turn back.
    GivingTurn { name: Name, tablet: u32 },
}

impl AllocStage {
    pub(crate) fn next(&self, caller: &Caller) -> Step
        requires caller { IsCaller caller.now }
        requires known { NewIsKnown caller.now self.now }
        ensures next { result ≡ new_next caller.now self.now }
        ensures within { IsWithin (total caller.now.shape) result }
    {
        match self {
            AllocStage::LoadingPhase { .. } => Step::load(caller.shape.phase()),
            AllocStage::Searching { search, .. } => search.next(),
            AllocStage::StoringRoot { root, name, .. } => {
                Step::store(caller.root(*root), Value::Ref(*name).pack())
            }
            AllocStage::GivingTurn { tablet, .. } => Step::store(caller.shape.turn(*tablet), 0),
        }
    }
}

impl Standing {
    ghost use Rattle.mako_call.specs.declared.allocating.AllocStage.{AllocStage};
    ghost use Rattle.mako_call.specs.declared.standing.Standing.TheVariants as standings;

    /// Goes on with this word, where it makes an object.
    #[inline(never)]
    pub(crate) fn feed_allocating(&mut self, caller: &Caller, before: u64) -> bool
        requires caller { IsCaller caller.now }
        requires known { StageIsKnown caller.now (stage_at self.old) }
        requires fits { StageFits caller.now.shape (stage_at self.old) before }
        ensures { (stage : AllocStage) → self.old ≡ standings.Allocating stage →
            (stage_at self.new ≡ new_fed caller.now stage before)
            × (result ≡ tells (stage_at self.old) (stage_at self.new)) }
    {
        let Standing::Allocating(stage) = self else {
            return false;
        };
        match stage {
            AllocStage::LoadingPhase { root, fields } => {
                let root = *root;
                let cycle = cycle_of(phase_of(before));
                let search = NewMachine::new(caller.shape, caller.mutator, *fields, cycle);
                *stage = AllocStage::Searching { root, search };
            }
            AllocStage::Searching { root, search } => {
                search.feed(before);
                if let Step::Ended = search.next() {
                    let root = *root;
                    let found = search.result();
                    return self.end_search(root, found);
                }
            }
            AllocStage::StoringRoot { name, tablet, .. } => {
                let (name, tablet) = (*name, *tablet);
                *stage = AllocStage::GivingTurn { name, tablet };
            }
            AllocStage::GivingTurn { name, tablet } => {
                *self = answered_at(*tablet, Reply::Made(*name));
            }
        }
        false
    }

    /// It has gone over the tablets. Whether it made the object.
    fn end_search(&mut self, root: u8, found: Found) -> bool
        ensures fed { stage_at self.new ≡ found_fed root found }
        ensures told { result ≡ newly None (decided (stage_at self.new)) }
    {
        match found {
            Found::Made { name, tablet } => {
                *self = Standing::Allocating(AllocStage::StoringRoot { root, name, tablet });
                true
            }
            Found::Full => {
                *self = leaving(Attempt::Full);
                false
            }
            Found::Pause(pause) => {
                *self = leaving(Attempt::Pause(pause));
                false
            }
        }
    }
}
