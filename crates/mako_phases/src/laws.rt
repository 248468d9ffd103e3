//! Laws of the order of the phases and of live counts. The functions do nothing; what they ensure is for contracts and
//! proofs.

ghost use Rattle.mako_phases.specs.Choosing.{FindingsAreChosenOf, FindingsBegin, FindingsGoOn, FindingsStay};
ghost use Rattle.mako_phases.specs.Choosing.{TabletsAreChosenOnce};
ghost use Rattle.mako_phases.specs.Laws.{ChoosingIsStill, CyclesEndLast, EndedHaveNoLeaving, EpochsAreNotAhead};
ghost use Rattle.mako_phases.specs.Laws.{NamesRest, PhasesAreOfParts, SnapshotsAreReady, TabletsAreClearedInEvac};
ghost use Rattle.mako_phases.specs.Laws.{TabletsStay, WaitingAreNotLeaving};
ghost use Rattle.mako_phases.specs.LiveSteps.{CountsEnd, EntryWordsMark, LivesAreCounted, LivesCountTheReached};
ghost use Rattle.mako_phases.specs.LiveSteps.{PastCountsBegin, PastCountsStay, SizesAreThose, StepsKeepCounts};
ghost use Rattle.mako_phases.specs.LiveSteps.{SumsAreOne};
ghost use Rattle.mako_phases.specs.Reaching.{OpeningsAreInOrder, ReachedAreInOrder, StepsKeepPhaseOrder};
ghost use Rattle.mako_phases.specs.Snapshots.{SnapshotsAreOne};

/// Each kind of step keeps the order of the phases, for any number of seats.
pub fn steps_keep_the_order()
    ensures { StepsKeepPhaseOrder }
{}

/// The opening is in order, and so is all that is reached from it.
pub fn all_reached_are_in_order()
    ensures opening { OpeningsAreInOrder }
    ensures reached { ReachedAreInOrder }
{}

/// What the order tells of a cycle: the phase is that of the collector's part; outside of tracing no slot holds a name
/// and no server has anything to work on; no entry has the epoch of a cycle to come; no tablet is leaving but from the
/// choice to the end of evacuation; a server is at a tablet only in evacuation; once a server has ended the cycle, none
/// of its tablets is leaving; and Idle is stored only after each server has ended.
pub fn the_order_tells()
    ensures phase { PhasesAreOfParts }
    ensures rest { NamesRest }
    ensures epochs { EpochsAreNotAhead }
    ensures stay { TabletsStay }
    ensures cleared { TabletsAreClearedInEvac }
    ensures ended { EndedHaveNoLeaving }
    ensures last { CyclesEndLast }
{}

/// While the collector chooses, nobody else stores a top or a live word, and a tablet that it has still to give a
/// region is not leaving one.
pub fn choosing_is_still()
    ensures still { ChoosingIsStill }
    ensures waiting { WaitingAreNotLeaving }
{}

/// Where Trace is about to be stored, all is ready for the snapshot; and what stands before it is a function of the
/// history.
pub fn snapshots_are_ready()
    ensures ready { SnapshotsAreReady }
    ensures one { SnapshotsAreOne }
{}

/// Each kind of step keeps live counts while a cycle is traced, and what entry words do to marks is what these kinds
/// ask.
pub fn steps_keep_the_counts()
    ensures steps { StepsKeepCounts }
    ensures marks { EntryWordsMark }
{}

/// Where tracing ends with nothing owed, counts are past; past counts stay so where no live word is stored; and they
/// are right for the next cycle where it has no mark yet.
pub fn counts_go_from_cycle_to_cycle()
    ensures end { CountsEnd }
    ensures stay { PastCountsStay }
    ensures begin { PastCountsBegin }
{}

/// What live counts tell: a count is one number, of sizes that never change; where a server owes nothing, the live
/// word of a tablet is the sum over its marked names that were made before the snapshot; and where tracing is complete,
/// over those that were reachable then.
pub fn the_counts_tell()
    ensures one { SumsAreOne }
    ensures sizes { SizesAreThose }
    ensures counted { LivesAreCounted }
    ensures reached { LivesCountTheReached }
{}

/// What the collector finds of tops and live words stands as long as nobody stores one (`stay`), from nothing (`begin`)
/// tablet by tablet (`next`) and server by server (`server`). So what it chooses in the end is the choice of the words,
/// in which each tablet stands once (`once`).
pub fn findings_are_the_words()
    ensures begin { FindingsBegin }
    ensures stay { FindingsStay }
    ensures next { FindingsGoOn }
    ensures server { FindingsAreChosenOf }
    ensures once { TabletsAreChosenOnce }
{}
