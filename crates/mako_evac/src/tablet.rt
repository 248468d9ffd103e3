//! The stages of an evacuation at one tablet.

ghost use Rattle.std.specs.Prelude.{◌≡◌, ◌<◌, ◌+◌, ◌*◌};
ghost use Rattle.mako_shape.specs.Places.{total};
ghost use Rattle.mako_step.specs.Acts.{IsWithin};
ghost use Rattle.mako_record.specs.Copying.{next_of};
ghost use Rattle.mako_evac.specs.Owners as owners;
ghost use Rattle.mako_evac.specs.Owners.{IsOwner, IsOwnTablet};
ghost use Rattle.mako_evac.specs.Tablets.{tablet_next, tablet_fed, tablet_waits, copy_fed, IsPlaced, TabletFits};
ghost use Rattle.mako_evac.specs.Tablets.{TabletIsKnown};

use crate::owner::Owner;
use crate::stage::{EvacStage, at_record, at_tablet};
use crate::words::{counts_somebody, entry_of};
use mako_record::{Copier, is_in_region};
use mako_step::{Machine, Step};
use mako_words::{EntryWord, GateWord};

/// Where an evacuation stands at a tablet. A home is the tablet's region, and an entry one of the tablet.
#[derive(Clone, Copy)]
pub enum TabletStage {
    /// Next it loads which region the tablet leaves.
    LoadingLeaving,
    /// The tablet leaves a region, and it shuts the tablet's gate.
    Shutting,
    /// It looks whether the gate counts nobody.
    Draining,
    LoadingHome,
    /// It loads this entry, to copy its record if it is left behind.
    LoadingEntry {
        home: u32,
        entry: u32,
    },
    /// It copies the record of this entry.
    Copying {
        home: u32,
        entry: u32,
        copier: Copier,
    },
    /// Nothing is left behind, and the tablet leaves no region any more.
    Clearing,
    /// It reopens the gate.
    Reopening,
}

impl TabletStage {
    pub(crate) fn next(self, owner: &Owner, tablet: u32) -> Step
        requires owner { IsOwner owner.now }
        requires tablet { IsOwnTablet owner.now tablet }
        requires known { TabletIsKnown owner.now tablet self }
        ensures next { result ≡ tablet_next owner.now tablet self }
        ensures within { IsWithin (total owner.now.shape) result }
    {
        let shape = &owner.shape;
        match self {
            TabletStage::LoadingLeaving => Step::load(shape.leaving(tablet)),
            TabletStage::Shutting => Step::or(shape.tablet_gate(tablet), GateWord::SHUT),
            TabletStage::Draining => Step::load(shape.tablet_gate(tablet)),
            TabletStage::LoadingHome => Step::load(shape.home(tablet)),
            TabletStage::LoadingEntry { entry, .. } => Step::load(shape.entry(entry)),
            TabletStage::Copying { copier, .. } => copier.next(),
            TabletStage::Clearing => Step::store(shape.leaving(tablet), 0),
            TabletStage::Reopening => Step::and(shape.tablet_gate(tablet), !GateWord::SHUT),
        }
    }

    pub(crate) fn waits(self, before: u64) -> bool
        ensures { result ≡ tablet_waits self before }
    {
        match self {
            TabletStage::Draining => counts_somebody(before),
            _ => false,
        }
    }

    pub(crate) fn fed(self, owner: &Owner, tablet: u32, before: u64) -> EvacStage
        requires owner { IsOwner owner.now }
        requires tablet { IsOwnTablet owner.now tablet }
        requires known { TabletIsKnown owner.now tablet self }
        requires fits { TabletFits owner.now self before }
        ensures { result ≡ tablet_fed owner.now tablet self before }
    {
        let stage = match self {
            TabletStage::LoadingLeaving if before == 0 => return at_tablet(owner, tablet + 1),
            TabletStage::LoadingLeaving => TabletStage::Shutting,
            TabletStage::Draining if !counts_somebody(before) => TabletStage::LoadingHome,
            TabletStage::Shutting | TabletStage::Draining => TabletStage::Draining,
            TabletStage::LoadingHome => {
                return at_record(owner, tablet, before as u32, owner.first_entry(tablet));
            }
            TabletStage::LoadingEntry { home, entry } => {
                let found = entry_of(before);
                if !is_left(owner, home, found) {
                    return at_record(owner, tablet, home, entry + 1);
                }
                let copier = Copier::new(owner.shape, entry, found, home);
                TabletStage::Copying {
                    home,
                    entry,
                    copier,
                }
            }
            TabletStage::Copying {
                home,
                entry,
                mut copier,
            } => {
                copier.feed(before);
                return after_copy(owner, tablet, home, entry, copier);
            }
            TabletStage::Clearing => TabletStage::Reopening,
            TabletStage::Reopening => return at_tablet(owner, tablet + 1),
        };
        EvacStage::Evacuating(tablet, stage)
    }
}

/// The copy goes on, or past its end the tablet's next entry is due.
fn after_copy(owner: &Owner, tablet: u32, home: u32, entry: u32, copier: Copier) -> EvacStage
    requires owner { IsOwner owner.now }
    requires tablet { IsOwnTablet owner.now tablet }
    requires placed { IsPlaced owner.now tablet home entry }
    ensures { result ≡ copy_fed owner.now tablet home entry copier (next_of copier) }
{
    match copier.next() {
        Step::Do(_) => EvacStage::Evacuating(
            tablet,
            TabletStage::Copying {
                home,
                entry,
                copier,
            },
        ),
        Step::Ended => at_record(owner, tablet, home, entry + 1),
    }
}

/// Whether the object of this entry is of the cycle, and its record does not lie in the region.
fn is_left(owner: &Owner, region: u32, entry: EntryWord) -> bool
    requires { region < owner.now.shape.servers * (owner.now.shape.tablets + owner.now.shape.spare) }
    ensures { result ≡ owners.is_left owner.now region entry }
{
    entry.taken && entry.epoch == owner.cycle && !is_in_region(&owner.shape, region, entry.address)
}
