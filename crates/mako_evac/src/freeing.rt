//! The stages of an evacuation at one entry.

ghost use Rattle.std.specs.Prelude.{◌≡◌, ◌<◌};
ghost use Rattle.mako_shape.specs.Places.{total};
ghost use Rattle.mako_step.specs.Acts.{IsWithin};
ghost use Rattle.mako_evac.specs.Owners as owners;
ghost use Rattle.mako_evac.specs.Owners.{IsOwner, IsOwnEntry};
ghost use Rattle.mako_evac.specs.Freeing.{free_next, free_fed, free_waits, free_word, FreeIsKnown, HasNext};

use crate::owner::Owner;
use crate::stage::{EvacStage, at_entry};
use crate::words::entry_of;
use mako_step::Step;
use mako_words::{EntryWord, Name, NoticeWord};

/// Where an evacuation stands at an entry. The generation is that of the dead object.
#[derive(Clone, Copy)]
pub enum FreeStage {
    /// Next it loads the entry.
    Loading,
    /// The object is dead, and it frees the entry.
    Storing { generation: u32 },
    /// It looks whether the notice slot is empty.
    Awaiting { generation: u32 },
    /// It tells the collector the name.
    Telling { generation: u32 },
}

impl FreeStage {
    /// What it does next, with the notice slot that is due at this index.
    pub(crate) fn next(self, owner: &Owner, slot: u32, entry: u32) -> Step
        requires owner { IsOwner owner.now }
        requires slot { slot < total owner.now.shape }
        requires entry { IsOwnEntry owner.now entry }
        requires known { FreeIsKnown self }
        ensures next { result ≡ free_next owner.now slot entry self }
        ensures within { IsWithin (total owner.now.shape) result }
    {
        let word = owner.shape.entry(entry);
        match self {
            FreeStage::Loading => Step::load(word),
            FreeStage::Storing { generation } => Step::store(word, freed(generation)),
            FreeStage::Awaiting { .. } => Step::load(slot),
            FreeStage::Telling { generation } => {
                let notice = NoticeWord::Freed(Name { entry, generation });
                Step::store(slot, notice.pack())
            }
        }
    }

    pub(crate) fn waits(self, before: u64) -> bool
        ensures { result ≡ free_waits self before }
    {
        match self {
            FreeStage::Awaiting { .. } => before != 0,
            _ => false,
        }
    }

    pub(crate) fn fed(self, owner: &Owner, entry: u32, before: u64) -> EvacStage
        requires owner { IsOwner owner.now }
        requires entry { IsOwnEntry owner.now entry }
        ensures { result ≡ free_fed owner.now entry self before }
    {
        let stage = match self {
            FreeStage::Loading => {
                let found = entry_of(before);
                if !is_dead(owner, found) {
                    return at_entry(owner, entry + 1);
                }
                FreeStage::Storing {
                    generation: found.generation,
                }
            }
            FreeStage::Awaiting { generation } if before == 0 => FreeStage::Telling { generation },
            FreeStage::Storing { generation } | FreeStage::Awaiting { generation } => {
                FreeStage::Awaiting { generation }
            }
            FreeStage::Telling { .. } => return at_entry(owner, entry + 1),
        };
        EvacStage::Freeing(entry, stage)
    }
}

/// The word of an entry that is free behind an object of this generation.
fn freed(generation: u32) -> u64
    requires { HasNext generation }
    ensures { result ≡ free_word generation }
{
    let entry = EntryWord {
        taken: false,
        generation: generation + 1,
        epoch: 0,
        address: 0,
    };
    entry.pack()
}

/// Whether the object of this entry is of another cycle.
fn is_dead(owner: &Owner, entry: EntryWord) -> bool
    ensures { result ≡ owners.is_dead owner.now entry }
{
    entry.taken && entry.epoch != owner.cycle
}
