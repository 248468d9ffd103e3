//! What is true of the collector's trails. Each law is a contract, and its function has nothing to do.

ghost use Rattle.mako_cycles.specs.Hearing.{ListsRise};
ghost use Rattle.mako_cycles.specs.Housing.{CollectorsGive};
ghost use Rattle.mako_cycles.specs.Moments.{CollectorsGo};

/// At every moment the phase word that the trail stored last is that of the stage. Trace and Evac are stored only after
/// each mutator's gate was shut and then found counting nobody, and opened again after the store alone. In each cycle
/// completion is told at least twice, first with the gates open, and Evac is stored only after it is told with the
/// gates drained. The names freed in a cycle are those that the servers tell, one server after another, each up to its
/// Done.
pub fn cycles()
    ensures { CollectorsGo }
{}

/// Where each server tells names of its own entries in rising order, the names freed in a cycle rise, and none is there
/// twice.
pub fn freed_names()
    ensures { ListsRise }
{}

/// Each tablet has a home of its own, a region of its server. Each chosen tablet gets, in the order of choice, a spare
/// region of its server that is nobody's home, and before Evac is stored every chosen tablet has got one: wherever the
/// home of a chosen tablet is loaded, its server has a spare region left. This is so as long as each load of a home
/// finds what the collector stored there last, or the home at the opening; nobody else stores homes.
pub fn gifts()
    ensures { CollectorsGive }
{}
