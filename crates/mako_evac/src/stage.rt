//! The stages of an evacuation, in groups.

ghost use Rattle.std.specs.Prelude.{◌≡◌, ◌<◌, ◌≤◌, ◌+◌, ◌*◌};
ghost use Rattle.mako_evac.specs.Owners.{IsOwner, IsOwnTablet, IsOwnEntry, IsEntryOf};
ghost use Rattle.mako_evac.specs.Passing as passing;

use crate::freeing::FreeStage;
use crate::owner::Owner;
use crate::tablet::TabletStage;

/// Where an evacuation stands.
#[derive(Clone, Copy)]
pub enum EvacStage {
    /// It works on the tablet with this number.
    Evacuating(u32, TabletStage),
    /// It works on the entry with this number.
    Freeing(u32, FreeStage),
    /// It looks whether the notice slot is empty, for the last notice.
    AwaitingEnd,
    /// It tells that it has ended the cycle.
    TellingEnd,
    Ended,
}

/// At the tablet with this number, or past the last own one at the first own entry.
pub(crate) fn at_tablet(owner: &Owner, tablet: u32) -> EvacStage
    requires { IsOwner owner.now }
    ensures { result ≡ passing.at_tablet owner.now tablet }
{
    if tablet < owner.tablets_end() {
        EvacStage::Evacuating(tablet, TabletStage::LoadingLeaving)
    } else {
        EvacStage::Freeing(owner.first_entry(owner.first_tablet()), FreeStage::Loading)
    }
}

/// At the tablet's entry with this number, or past the last one at the tablet's end.
pub(crate) fn at_record(owner: &Owner, tablet: u32, home: u32, entry: u32) -> EvacStage
    requires owner { IsOwner owner.now }
    requires tablet { IsOwnTablet owner.now tablet }
    ensures { result ≡ passing.at_record owner.now tablet home entry }
{
    if entry < owner.first_entry(tablet + 1) {
        EvacStage::Evacuating(tablet, TabletStage::LoadingEntry { home, entry })
    } else {
        EvacStage::Evacuating(tablet, TabletStage::Clearing)
    }
}

/// At the own entry with this number, or past the last one at the end.
pub(crate) fn at_entry(owner: &Owner, entry: u32) -> EvacStage
    requires { IsOwner owner.now }
    ensures { result ≡ passing.at_entry owner.now entry }
{
    if entry < owner.first_entry(owner.tablets_end()) {
        EvacStage::Freeing(entry, FreeStage::Loading)
    } else {
        EvacStage::AwaitingEnd
    }
}
