//! Laws of runs. The functions do nothing; what they ensure is for contracts and proofs.

ghost use Rattle.mako_whole.specs.AllBarriers.{CollectorsHoldBarriers, MutatorsHoldBarriers, OpeningsHoldBarriers};
ghost use Rattle.mako_whole.specs.AllBarriers.{ServersHoldBarriers, StepsHoldBarriers};
ghost use Rattle.mako_whole.specs.AllCollecting.{CollectorsKeepSeats, FindingsFit, NoticeRuns};
ghost use Rattle.mako_whole.specs.AllCollectingScenes.{CameStand, CollectorsCome};
ghost use Rattle.mako_whole.specs.AllGifts.{ChoicesKeepGifts, FinishKeepsGifts, HearingKeepsGifts, MutatorsKeepGifts};
ghost use Rattle.mako_whole.specs.AllGifts.{NoticesFindGifts, OpeningsGiveNone, PollsKeepGifts, ServersKeepGifts};
ghost use Rattle.mako_whole.specs.AllGifts.{SnapshotsKeepGifts, StepsKeepGifts};
ghost use Rattle.mako_whole.specs.AllHoused.{AllHousedHaveSpares, CollectorsStayHoused, MutatorsLeaveHoused};
ghost use Rattle.mako_whole.specs.AllHoused.{OpeningsAreHoused, ServersLeaveHoused};
ghost use Rattle.mako_whole.specs.AllNotices.{CollectorNotices, FinishNotices, HearingNotices, MutatorNotices};
ghost use Rattle.mako_whole.specs.AllNotices.{OpeningNotices, ServerNotices};
ghost use Rattle.mako_whole.specs.AllRuns.{ChoiceRuns, CollectorRuns, EvacRuns, GateRuns, LookRuns, MutatorRuns};
ghost use Rattle.mako_whole.specs.AllRuns.{PollRuns, RoundStoreRuns, ServerRuns, SnapshotRuns, StopRuns};
ghost use Rattle.mako_whole.specs.AllStanding.{AllRunsStand, CollectorStands, OpeningsStand, RunsAnswer};
ghost use Rattle.mako_whole.specs.AllStanding.{RunsAnswerToEnd, RunsFree, RunsReply, StepsCanGo, StepsStand};

/// There are facets with which all seats sit in the state of a core after the step of a mutator (`mutators`) and of a
/// server (`servers`), where there were before it; so it is after a step of the collector where its law gives all seats
/// in the scene after it (`collectors`).
pub fn seats_sit_after_steps()
    ensures mutators { MutatorRuns }
    ensures servers { ServerRuns }
    ensures collectors { CollectorRuns }
{}

/// So it is after the steps of the collector that are told here: its looks, its stores of pending names, its poll, the
/// choice of tablets where there is a spare region left for a home that it loads, its stores at gates, and the stores
/// of Trace, Evac and Stop.
pub fn seats_sit_after_collecting()
    ensures looks { LookRuns }
    ensures stores { RoundStoreRuns }
    ensures polls { PollRuns }
    ensures choices { ChoiceRuns }
    ensures gates { GateRuns }
    ensures stop { StopRuns }
    ensures snapshots { SnapshotRuns }
    ensures evacuations { EvacRuns }
{}

/// Where each barrier slot has a name or nothing, a notice that was found stands in its slot yet, nothing is left of
/// the servers that were read, the regions given up get spare with the next cycle, and a home that is loaded has a
/// spare region: what the collector finds is what it can go on with (`fit`), and all seats sit after its step at a
/// notice and after the store of Idle (`notices`), and so after each of its steps, whatever its stage (`keep`): they do
/// in the scene that the law of its stage names (`scenes`). Where all that stands in this scene again, the state after
/// the step is as the one before it (`stand`).
pub fn collectors_keep_seats()
    ensures fit { FindingsFit }
    ensures notices { NoticeRuns }
    ensures keep { CollectorsKeepSeats }
    ensures scenes { CollectorsCome }
    ensures stand { CameStand }
{}

/// Each barrier slot has a name or nothing: before the first step of any script (`openings`), and, where it is so and
/// all seats sit, after each step of a mutator (`mutators`), of a server (`servers`) and of the collector, in any scene
/// with the words after its act (`collectors`). So it is after any step of a state in which all seats sit (`steps`).
pub fn barriers_stay_named()
    ensures openings { OpeningsHoldBarriers }
    ensures mutators { MutatorsHoldBarriers }
    ensures servers { ServersHoldBarriers }
    ensures collectors { CollectorsHoldBarriers }
    ensures steps { StepsHoldBarriers }
{}

/// The collector went from its opening to where it is, and found each home as it stored it. So it is before the first
/// step of any script (`opening`), and after each step of a mutator (`mutators`), of a server (`servers`) and, at every
/// stage, of the collector, where the word that it finds is one that it can go on with (`collectors`). Then there is
/// a spare region for each home that it loads (`spares`).
pub fn all_homes_are_as_stored()
    ensures opening { OpeningsAreHoused }
    ensures mutators { MutatorsLeaveHoused }
    ensures servers { ServersLeaveHoused }
    ensures collectors { CollectorsStayHoused }
    ensures spares { AllHousedHaveSpares }
{}

/// Nothing is left of the servers that the collector has read, and the notice that it has found still stands: so it
/// is before the first step of any script (`opening`). Each step keeps it where all seats sit: of a mutator
/// (`mutators`), of a server, which sends while it is yet to be read, and stores notices into empty slots (`servers`),
/// of the collector beside its notices (`collectors`), of its looks at notices and its takes (`hearing`), and with
/// the store of Idle (`finish`).
pub fn notices_stand()
    ensures opening { OpeningNotices }
    ensures mutators { MutatorNotices }
    ensures servers { ServerNotices }
    ensures collectors { CollectorNotices }
    ensures hearing { HearingNotices }
    ensures finish { FinishNotices }
{}

/// The regions that tablets gave up so far in a cycle are those that get spare with the next one, but for the one that
/// is still to be told: so it is at the start of each proper script (`openings`), and past each step of a mutator
/// (`mutators`), of a server (`servers`), and of the collector: those that leave the choice (`steps`), the store of
/// Trace with the snapshot (`snapshots`), its poll (`polls`), the choice of tablets with the store of Evac (`choices`),
/// its notices (`hearing`), and the store of Idle (`finish`). So it finds them so at its notices (`notices`).
pub fn gifts_get_spare_next()
    ensures notices { NoticesFindGifts }
    ensures openings { OpeningsGiveNone }
    ensures mutators { MutatorsKeepGifts }
    ensures servers { ServersKeepGifts }
    ensures steps { StepsKeepGifts }
    ensures snapshots { SnapshotsKeepGifts }
    ensures polls { PollsKeepGifts }
    ensures choices { ChoicesKeepGifts }
    ensures hearing { HearingKeepsGifts }
    ensures finish { FinishKeepsGifts }
{}

/// There are facets with which all seats sit in a state, none of them behind those of the seats, while each barrier
/// slot has a name or nothing, notices stand, homes are as stored, and the regions given up get spare with the next
/// cycle: so it is after each step of the collector, whatever its stage, where it was so before.
pub fn collector_stands()
    ensures { CollectorStands }
{}

/// So all seats stand before the first step of every script that the grammar allows (`opening`), and after each step of
/// any seat where they stood before it (`keep`); and then a seat can make its step: its act is of a word that there is,
/// within its bounds, and finds what the machine can go on with (`go`).
pub fn all_steps_stand()
    ensures opening { OpeningsStand }
    ensures keep { StepsStand }
    ensures go { StepsCanGo }
{}

/// From the start of every script that the grammar allows, after any steps of any seats in any order, all seats stand
/// (`stand`): there are facets with which all groups hold, and each seat keeps what it keeps. So the front answers the
/// script (`answers`), to its end once each mutator is at its end (`end`); each mutator has the replies of the history
/// (`replies`); and each finished cycle freed exactly the names that died in it (`freed`).
pub fn all_runs_stand()
    ensures stand { AllRunsStand }
    ensures answers { RunsAnswer }
    ensures end { RunsAnswerToEnd }
    ensures replies { RunsReply }
    ensures freed { RunsFree }
{}
