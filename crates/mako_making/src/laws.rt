//! What keeps all groups, in every phase. The functions do nothing; what they ensure is for contracts and proofs.

ghost use Rattle.mako_making.specs.Going.{MakingsCanGo};
ghost use Rattle.mako_making.specs.Stages.{StepsKeepAll, AttemptsCollect, AttemptsFilled, AttemptsObject, AwaitsCycle};
ghost use Rattle.mako_making.specs.Stages.{IsPastCalls, NoneBeginsASearch, SearchesStay};

/// Each step of a collect keeps all groups and what the mutator keeps of itself, each of the wait of a new that found
/// no room, and that of a mutator past its calls.
pub fn waits_keep_all()
    ensures collects { StepsKeepAll AttemptsCollect }
    ensures waits { StepsKeepAll AwaitsCycle }
    ensures ends { StepsKeepAll IsPastCalls }
{}

/// So does each step of a new: the load of the phase, the search of a tablet with room and of a free entry, the stores
/// of the record, the top and the entry, and those of the root and the turn.
pub fn news_keep_all()
    ensures { StepsKeepAll AttemptsObject }
{}

/// And that of an attempt without room which leaves its gate: the last one is answered, since it has gone over all
/// tablets, and after another the mutator waits for a cycle.
pub fn full_keeps_all()
    ensures { StepsKeepAll AttemptsFilled }
{}

/// What a search keeps of itself stays over the steps of other seats: the phase gets another cycle in pauses alone, in
/// which nobody searches. And no step at another stage than those of a new leads into a search.
pub fn searches_stay()
    ensures stay { SearchesStay }
    ensures begin { NoneBeginsASearch }
{}

/// The next act in each of these is of a word that there is, stays within it, and finds what the machine can go on
/// with.
pub fn makings_can_go()
    ensures { MakingsCanGo }
{}
