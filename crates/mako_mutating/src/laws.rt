//! That the steps of a mutator's calls keep all groups. The functions do nothing; what they ensure is for contracts and
//! proofs.

ghost use Rattle.mako_mutating.specs.Beside.{OpeningsKeep, OthersLeave, StepsLeaveOthers};
ghost use Rattle.mako_mutating.specs.Laws.{ArrivalsKeep, AttemptsCanGo, AttemptsKeep, EntersKeep, FinishesKeep};
ghost use Rattle.mako_mutating.specs.Laws.{GetsKeep, LeavesKeep, MovesKeep, PutsKeep, RootsKeep};

/// In every phase, the step of a mutator's attempt keeps all groups, and what the mutator keeps of itself; and its act
/// finds what it can go on with. The facets of its seat are those of the machine, before and after. Left out are the
/// stages in which a new seeks room, or has found none, and those of a collect. At the end of its program the step with
/// which a mutator counts itself keeps as much.
pub fn attempts_keep_all()
    ensures keep { AttemptsKeep }
    ensures go { AttemptsCanGo }
    ensures end { FinishesKeep }
{}

/// By the parts of an attempt: at its own gate; at its roots; at the gate, the entry and the home of its object; where
/// it moves the object's record; at the record for a get, and for a put with its barrier; and where it leaves its gates
/// again.
pub fn each_part_keeps_all()
    ensures arrivals { ArrivalsKeep }
    ensures roots { RootsKeep }
    ensures enters { EntersKeep }
    ensures moves { MovesKeep }
    ensures gets { GetsKeep }
    ensures puts { PutsKeep }
    ensures leaves { LeavesKeep }
{}

/// A mutator keeps what it keeps of itself through the steps of other seats that leave its root words, fill none of its
/// barrier slots, and tell no answer of its own. The step of a mutator's attempt is such a one to every other mutator.
pub fn others_leave_mutators()
    ensures keep { OthersLeave }
    ensures steps { StepsLeaveOthers }
{}

/// It keeps so much at the opening, before its program.
pub fn openings_keep_mutators()
    ensures { OpeningsKeep }
{}
