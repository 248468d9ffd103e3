//! Each step of a server's evacuation keeps all groups. The functions do nothing; what they ensure is for contracts
//! and proofs.

ghost use Rattle.mako_clearing.specs.Apart.{EvacuationsAreApart, HearingIsApart, StoresAreApart};
ghost use Rattle.mako_clearing.specs.Clearing.{ClearingStays, FreeingKeeps, TabletsKeep};
ghost use Rattle.mako_clearing.specs.Hearing.{FinishKeeps, HearingKeeps};
ghost use Rattle.mako_clearing.specs.Notices.{SendingStays};
ghost use Rattle.mako_clearing.specs.Rooms.{FreedAreFew};
ghost use Rattle.mako_clearing.specs.Smallness.{ObjectsStaySmall, PointsKeepSizes};
ghost use Rattle.mako_clearing.specs.Turning.{EvacuationsBegin, EvacuationsEnd};

/// A server's evacuation begins at the first of its tablets; and where it has no step any more, it is at its end.
pub fn evacuations_begin_and_end()
    ensures begin { EvacuationsBegin }
    ensures end { EvacuationsEnd }
{}

/// A server that evacuates loads whether a tablet is leaving, shuts and drains its gate, copies the records of the
/// cycle that are left behind, clears leaving and reopens the gate. Each of these steps keeps all groups, and what the
/// server keeps of itself.
pub fn tablets_keep_all()
    ensures { TabletsKeep }
{}

/// Past its tablets a server frees the entries of dead objects, and tells each name and then the end of the cycle.
/// Each of these steps keeps all groups, and what the server keeps of itself.
pub fn freeing_keeps_all()
    ensures { FreeingKeeps }
{}

/// What a server that evacuates keeps of itself stands through steps of other seats that keep all groups, leave its
/// entries that are due to be freed, and store nothing into the slot that it found empty.
pub fn clearing_stays()
    ensures { ClearingStays }
{}

/// So it is with the steps of another server's evacuation, with those of the collector at notices, and with each store
/// that is neither at one of the server's entries nor at one of its notice slots.
pub fn evacuations_are_apart()
    ensures servers { EvacuationsAreApart }
    ensures hearing { HearingIsApart }
    ensures stores { StoresAreApart }
{}

/// What a server has sent stands through steps that store none of its notices.
pub fn sending_stays()
    ensures { SendingStays }
{}

/// The collector takes the notices of the servers in turn: each look and each take keeps all groups, and what is left
/// of what the server has sent.
pub fn hearing_keeps_all()
    ensures { HearingKeeps }
{}

/// Once it has heard all servers, it stores Idle: the cycle is finished with the names that were freed, the regions
/// that tablets gave up become spare, and all groups are kept.
pub fn cycles_finish()
    ensures { FinishKeeps }
{}

/// The names that finished cycles and the running one have freed are no more than the names made: so the collector has
/// room for each that it takes.
pub fn freed_are_few()
    ensures { FreedAreFew }
{}

/// An object has at most 14 fields, where programs ask for no larger ones; and it keeps their number.
pub fn objects_stay_small()
    ensures small { ObjectsStaySmall }
    ensures sizes { PointsKeepSizes }
{}
