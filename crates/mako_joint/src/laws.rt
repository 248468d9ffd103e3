//! What the groups give to one another, and what keeps them all. The functions do nothing; what they ensure is for
//! contracts and proofs.

ghost use Rattle.mako_joint.specs.Bridges.{AllAreMarked, FreeingFollows, GatesDrain, HeapsStand, HeldAreTaken};
ghost use Rattle.mako_joint.specs.Bridges.{HeldHaveTheEpoch, NoneReadsTheFreed, NothingIsGiven, PartsPause};
ghost use Rattle.mako_joint.specs.Bridges.{UsedRecordsArePresent, ValuesFitTheirWords};
ghost use Rattle.mako_joint.specs.Kinds.{FindsAway, FreesEntry, LoadsEntry, MarksName, MovesEntry, StoresField};
ghost use Rattle.mako_joint.specs.Openings.{OpeningsHoldAll};

/// Each value in a root or a field fits its word.
pub fn values_fit()
    ensures { ValuesFitTheirWords }
{}

/// Names and layout give what tracing asks of words and history; and where tracing is complete, it gives the marks
/// with which evacuation may begin.
pub fn tracing_is_served()
    ensures heap { HeapsStand }
    ensures marked { AllAreMarked }
{}

/// The entry of a name that a seat has still to use is taken, and has the epoch while servers evacuate: so no view
/// reads an entry that is to be freed.
pub fn names_in_use_are_kept()
    ensures taken { HeldAreTaken }
    ensures epoch { HeldHaveTheEpoch }
    ensures freed { NoneReadsTheFreed }
{}

/// A view that uses a place for a name in a root finds the object's record there, with its fields.
pub fn used_records_are_present()
    ensures { UsedRecordsArePresent }
{}

/// In a pause all gates are drained, and no mutator is admitted; where no tablet is chosen, none has given up a region
/// or is leaving one; and who frees entries does so in the evacuation of its cycle, of tablets that are not leaving.
pub fn phases_tell()
    ensures pause { PartsPause }
    ensures drained { GatesDrain }
    ensures given { NothingIsGiven }
    ensures freeing { FreeingFollows }
{}

/// All groups hold at the opening.
pub fn openings_hold()
    ensures { OpeningsHoldAll }
{}

/// They are kept where a mutator loads the entry of a name in use, where as a writer it finds the record outside of the
/// home, where a writer stores the address of the copy, where a server frees an entry or marks a name, and where a put
/// stores its field with its point.
pub fn kinds_keep_all()
    ensures loads { LoadsEntry }
    ensures away { FindsAway }
    ensures moves { MovesEntry }
    ensures frees { FreesEntry }
    ensures marks { MarksName }
    ensures field { StoresField }
{}
