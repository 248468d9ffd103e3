//! Laws of the collector's steps. The functions do nothing; what they ensure is for contracts and proofs.

ghost use Rattle.mako_collecting.specs.Findings.{FindingsAreKept, LivesStay, SnapshotsBeginCounts, ChoosingEndsCounts};
ghost use Rattle.mako_collecting.specs.Opening.{MachinesOpen};
ghost use Rattle.mako_collecting.specs.Roles.{GiftsMayBeGiven, ChoicesAreKept, ChoicesBegin, StepsLeaveKept};
ghost use Rattle.mako_collecting.specs.Keeping.{OthersLeaveIt, PutsLeaveIt};
ghost use Rattle.mako_collecting.specs.Laws.{IdleStepsKeep, PauseStepsKeep, SnapshotsKeep, RoundStepsKeep};
ghost use Rattle.mako_collecting.specs.Laws.{PollStepsKeep, ChoiceStepsKeep, SeatsStay, StepsKeepTheirOwn};
ghost use Rattle.mako_collecting.specs.Laws.{StepsKeepKnown, StandsGoOn};

/// Each step of the collector where no cycle runs keeps all groups: the looks at demand and finished, and the store of
/// Stop.
pub fn idle_steps_keep()
    ensures { IdleStepsKeep }
{}

/// So does each step of a pause: where gates are shut, drained and opened, and roots loaded (`steps`); and the store of
/// Trace, with the snapshot (`snapshot`).
pub fn pauses_keep()
    ensures steps { PauseStepsKeep }
    ensures snapshot { SnapshotsKeep }
{}

/// So does each step while servers trace: where names are forwarded, and barrier and work rings looked at (`rounds`);
/// and each step of the poll, also where completion is told (`polls`).
pub fn rounds_keep()
    ensures rounds { RoundStepsKeep }
    ensures polls { PollStepsKeep }
{}

/// So does each step of the choice, up to the store of Evac and the opening of the gates.
pub fn choices_keep()
    ensures { ChoiceStepsKeep }
{}

/// After a step the seat's facets are those of the machine (`seat`); what the machine keeps of itself and of the
/// barrier rings stands (`own`), and all that it keeps is in range (`known`). So it stands again where the step keeps
/// all groups (`again`).
pub fn machines_keep()
    ensures seat { SeatsStay }
    ensures own { StepsKeepTheirOwn }
    ensures known { StepsKeepKnown }
    ensures again { StandsGoOn }
{}

/// What the collector has found of tops and live words is that of the words, and no tablet stands twice among those
/// that it has chosen (`found`). It stores no live word (`lives`); with the store of Trace live counts begin (`begin`),
/// and while it chooses they are past (`end`).
pub fn findings_keep()
    ensures found { FindingsAreKept }
    ensures lives { LivesStay }
    ensures begin { SnapshotsBeginCounts }
    ensures end { ChoosingEndsCounts }
{}

/// The choice as the layout reads it is what the collector keeps of regions and chosen tablets: so it is from the
/// choice's beginning on (`begin`), past each step of it (`kept`), and what a gift asks follows (`gifts`). Geometry and
/// cycle stay, and a gift alone changes roles (`rest`).
pub fn roles_keep()
    ensures begin { ChoicesBegin }
    ensures kept { ChoicesAreKept }
    ensures gifts { GiftsMayBeGiven }
    ensures rest { StepsLeaveKept }
{}

/// What it keeps stands beside steps of other seats: those that change no barrier slot (`others`), and a mutator's put
/// into its barrier ring, while the gates are not held (`puts`).
pub fn others_leave_it()
    ensures others { OthersLeaveIt }
    ensures puts { PutsLeaveIt }
{}

/// At the opening what the collector keeps is in range and stands, and the spare regions are those of the layout.
pub fn machines_open()
    ensures { MachinesOpen }
{}
