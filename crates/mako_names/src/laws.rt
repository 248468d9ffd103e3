//! What ties the table's entries and the names in use to the front, and what follows from it. The functions do
//! nothing; what they ensure is for contracts and proofs.

ghost use Rattle.mako_names.specs.Telling.{StepsKeepNames, StoresElsewhereAreSteps, OpeningsHaveNames};
ghost use Rattle.mako_names.specs.Telling.{ReachedHaveNames, ReachedAnswer, ReachedAnswerToEnd, NamesAreInOrder};
ghost use Rattle.mako_names.specs.Telling.{EntriesTell, GoodNamesAreTaken, SlotNamesAreTaken, HeldNamesAreTaken};
ghost use Rattle.mako_names.specs.Telling.{RootsAreGood, FieldsAreGood, MarksReach, PassedHaveEpoch, ListsAreFreed};

/// Each kind of step keeps the ties of names, and a store at a place of which they say nothing is one of them.
pub fn names_are_kept()
    ensures steps { StepsKeepNames }
    ensures elsewhere { StoresElsewhereAreSteps }
{}

/// They hold at the opening.
pub fn openings_have_names()
    ensures { OpeningsHaveNames }
{}

/// They hold after any steps of these kinds, and the front answers the script, to its end where no call is left.
pub fn names_hold_always()
    ensures holds { ReachedHaveNames }
    ensures answers { ReachedAnswer }
    ensures end { ReachedAnswerToEnd }
{}

/// What they tell of names: those of an entry are in order, and the entry tells which were made and which of them
/// are dead; the entry of a good name is taken with its generation, and so it is for each name in a slot, and each
/// that a seat has still to use; and good are the names in roots, and in fields of good objects.
pub fn names_tell()
    ensures order { NamesAreInOrder }
    ensures entries { EntriesTell }
    ensures taken { GoodNamesAreTaken }
    ensures slots { SlotNamesAreTaken }
    ensures held { HeldNamesAreTaken }
    ensures roots { RootsAreGood }
    ensures fields { FieldsAreGood }
{}

/// What they tell of a cycle: marks come to all that was reachable at the snapshot; a taken entry that its server
/// has gone over has the cycle's epoch; and the list that the collector has read is that of the names freed.
pub fn cycles_tell()
    ensures marks { MarksReach }
    ensures passed { PassedHaveEpoch }
    ensures freed { ListsAreFreed }
{}
