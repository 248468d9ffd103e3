//! How far a `new` has come.

ghost use Rattle.std.specs.Prelude.{◌≡◌};
ghost use Rattle.mako_alloc.specs.Allocating as allocating;

use crate::found::Found;
use mako_model::Pause;
use mako_words::Name;

/// The record that is made, which nobody else knows of until its entry is stored.
#[derive(Clone, Copy)]
pub struct NewRecord {
    pub name: Name,
    /// The tablet's home region.
    pub home: u32,
    /// The place of its header in that region.
    pub top: u32,
}

/// What of an object is stored next.
#[derive(Clone, Copy)]
pub enum Part {
    Header,
    /// The field with this number, which becomes null.
    Field(u8),
    /// The tablet's top, which rises over the record.
    Top,
    /// The entry, and with it the object is published.
    Entry,
}

/// What a `new` does next at the tablet that it is at.
#[derive(Clone, Copy)]
pub enum NewStage {
    Arriving,
    /// It found the gate shut, and takes its arrival back.
    TurnedAway,
    TakingTurn,
    LoadingLeaving,
    LoadingTop,
    /// The tablet has room over this top, and no entry before this place is free.
    LoadingEntry { top: u32, place: u32 },
    /// The entry of this name is free.
    LoadingHome { top: u32, name: Name },
    Making(NewRecord, Part),
    GivingTurn,
    Leaving,
    Ended(Found),
}

/// How far a `new` has come.
#[derive(Clone, Copy)]
pub struct Progress {
    /// How many tablets it passed on from. At its end it is still at the last one that it was at.
    pub passed: u32,
    /// Why the first tablet that could not be tried could not.
    pub note: Option<Pause>,
    pub stage: NewStage,
}

impl Progress {
    /// The same, at this stage.
    pub(crate) fn at(&self, stage: NewStage) -> Progress
        ensures { result ≡ allocating.at self.now stage }
    {
        Progress {
            passed: self.passed,
            note: self.note,
            stage,
        }
    }

    /// The same at this stage, with a note of this reason if it is the first.
    pub(crate) fn noted(&self, pause: Pause, stage: NewStage) -> Progress
        ensures { result ≡ allocating.noted self.now pause stage }
    {
        Progress {
            passed: self.passed,
            note: self.note.or(Some(pause)),
            stage,
        }
    }

    /// What it comes to after the last tablet.
    pub(crate) fn outcome(&self) -> Found
        ensures { result ≡ allocating.outcome self.now.note }
    {
        match self.note {
            Some(pause) => Found::Pause(pause),
            None => Found::Full,
        }
    }
}
