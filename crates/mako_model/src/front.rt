//! The front of a run: its history and its finished cycles, as contracts see them.

ghost use Rattle.std.specs.Prelude.{◌≡◌, []};

use crate::cycles::Cycles;
use crate::journal::Journal;
use std::alloc::Global;
use std::marker::Model;
use std::snapshot::Snapshot;

/// A history and the names freed in each finished cycle. It has no bytes: only contracts read it.
#[derive(Drop)]
pub struct Front {
    history: Snapshot<Journal>,
    cycles: Snapshot<Cycles>,
}

impl Model for Front {
    ghost use Rattle.mako_model.specs.Fronts.{Seen};

    ghost Value = { Seen };

    ghost view = { λ f. record { history = f.history.value.points; finished = f.cycles.value.lists } };
}

impl Front {
    /// The front before anything was done.
    pub fn empty(alloc: Global) -> Front
        ensures { result ≡ record { history = []; finished = [] } }
    {
        Front::of(&Journal::new(alloc), &Cycles::new(alloc))
    }

    /// The front of a journal and of the finished cycles.
    pub fn of(journal: &Journal, cycles: &Cycles) -> Front
        ensures history { result.history ≡ journal.now.points }
        ensures finished { result.finished ≡ cycles.now.lists }
    {
        Front {
            history: Snapshot::of(journal),
            cycles: Snapshot::of(cycles),
        }
    }
}
