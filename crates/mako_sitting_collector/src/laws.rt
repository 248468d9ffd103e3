//! Laws of the collector among all seats. The functions do nothing; what they ensure is for contracts and proofs.

ghost use Rattle.mako_sitting_collector.specs.CollectorChoices.{ChoicesKeepAll, EvacKeepsAll, TracesStayOfSeats};
ghost use Rattle.mako_sitting_collector.specs.CollectorFinishes.{FinishKeepsAll};
ghost use Rattle.mako_sitting_collector.specs.CollectorGates.{GatesKeepAll, StopsKeepAll};
ghost use Rattle.mako_sitting_collector.specs.CollectorGoing.{CollectorsCanGo, EmptyingLeavesNames, LooksFindNames};
ghost use Rattle.mako_sitting_collector.specs.CollectorGoing.{PutsLeaveNames};
ghost use Rattle.mako_sitting_collector.specs.CollectorHears.{HearingKeepsAll};
ghost use Rattle.mako_sitting_collector.specs.CollectorHoused.{ChoicesStayHoused, HousedHaveSpares};
ghost use Rattle.mako_sitting_collector.specs.CollectorRounds.{PollsKeepAll, RoundStoresKeepAll};
ghost use Rattle.mako_sitting_collector.specs.CollectorSnaps.{SnapshotsKeepAll, SnapshotsKeepGroups, StepsAddNoFacet};
ghost use Rattle.mako_sitting_collector.specs.CollectorSnaps.{TiesHoldAtSnapshots};
ghost use Rattle.mako_sitting_collector.specs.CollectorSteps.{LooksKeepAll};

/// All seats sit after each look of the collector that is told here: where no cycle runs, at the demand and at the
/// finished word; and in a cycle at a gate that it drains, a root, the head of a work ring, a barrier slot and a work
/// slot, and in the choice a tablet's live word and its top.
pub fn looks_keep_all_seats()
    ensures { LooksKeepAll }
{}

/// While servers trace all seats sit after each store of the collector into a ring, of a pending name into a work ring
/// and of 0 into the barrier slot in which it found one (`stores`); and after each step of its poll, also where
/// completion is told and the choice begins (`polls`).
pub fn rounds_keep_all_seats()
    ensures stores { RoundStoresKeepAll }
    ensures polls { PollsKeepAll }
{}

/// So do they after each step of the choice of tablets up to the store of Evac (`steps`): where live words, tops and
/// homes are loaded, and where a chosen tablet gets another region. Where a home is loaded, the tablet's server has to
/// have a spare region left; so it is where the collector has found each home as it stored it (`spares`), which these
/// steps keep (`housed`). And so do they after the store of Evac, where live counts end, as long as facets of tracing
/// are those of the seats alone (`evac`), as each step of the collector leaves them (`traces`).
pub fn choices_keep_all_seats()
    ensures steps { ChoicesKeepAll }
    ensures spares { HousedHaveSpares }
    ensures housed { ChoicesStayHoused }
    ensures evac { EvacKeepsAll }
    ensures traces { TracesStayOfSeats }
{}

/// All seats sit after each store of the collector at a gate (`gates`): where it shuts a gate for a pause, and where it
/// opens one after the snapshot or after the store of Evac. So they do after the store of Stop (`stop`).
pub fn gates_keep_all_seats()
    ensures gates { GatesKeepAll }
    ensures stop { StopsKeepAll }
{}

/// Where no facet stands behind those of the seats: at the store of Trace the facets of each seat are of one machine,
/// roots stand in their words, and no name is to be used but those of roots (`ties`). So all groups hold after the
/// store, with the snapshot (`groups`), and all seats sit (`seats`). No step adds such a facet (`facets`).
pub fn snapshots_keep_seats()
    ensures ties { TiesHoldAtSnapshots }
    ensures groups { SnapshotsKeepGroups }
    ensures seats { SnapshotsKeepAll }
    ensures facets { StepsAddNoFacet }
{}

/// All seats sit after each step in which the collector looks at the notices of a server, or takes one: its act can
/// step, and what it takes is gone from what the server has sent. The word that it found has to stand in its slot
/// yet, as it does after the step. Where nothing is left of the servers that it has read, and the regions given up
/// are those that get spare with the next cycle, it is so after the step too.
pub fn notices_keep_all_seats()
    ensures { HearingKeepsAll }
{}

/// All seats sit after the store of Idle, with which the collector finishes the cycle: all servers are at their
/// turns, the regions that tablets gave up are spare, and nothing is left of what servers have sent. It asks that
/// nothing is left of the servers that the collector has read, and that the regions given up are those that get spare
/// with the next cycle.
pub fn finished_cycles_keep_all_seats()
    ensures { FinishKeepsAll }
{}

/// The collector can make its next step: its act is of a word that there is, and finds what the machine can go on with.
/// It asks that the barrier slot that it looks at has a name or nothing, and that the notice that it has found still
/// stands in its slot.
pub fn collectors_can_go()
    ensures { CollectorsCanGo }
{}

/// Where each barrier slot has a name or nothing, the collector's look at one finds what it can go on with (`looks`).
/// So it stays where slots are left or emptied (`emptied`), and where a name is stored into one (`put`).
pub fn barriers_have_names()
    ensures looks { LooksFindNames }
    ensures emptied { EmptyingLeavesNames }
    ensures put { PutsLeaveNames }
{}
