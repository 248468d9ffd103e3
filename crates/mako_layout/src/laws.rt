//! Laws of layouts. The functions do nothing; what they ensure is for contracts and proofs.

ghost use Rattle.mako_layout.specs.Actions.{HomesChangeInPauses, FreeWordsAreTheWriters};
ghost use Rattle.mako_layout.specs.Claims.{PutKeeps, AlterKeeps, ChooseKeeps, ClearKeeps, FinishKeeps, CycleKeeps};
ghost use Rattle.mako_layout.specs.Claims.{SameKeeps, CopyFits, AllMoved, FreeAbove};
ghost use Rattle.mako_layout.specs.Conclusions.{ServersCopyAlone, WritersMayWrite, OneWriter, UsedIsPresent};
ghost use Rattle.mako_layout.specs.Conclusions.{ReadIsPresent, FoundIsPresent, EachHasItsRecord, RecordsAreApart};
ghost use Rattle.mako_layout.specs.Conclusions.{AllAreHomeAtRest, BegunCopiesFit, WhatIsLeftFits, ClearedTopsAreExact};
ghost use Rattle.mako_layout.specs.Conclusions.{UsedIsMade};
ghost use Rattle.mako_layout.specs.Found.{GatesAreFound, HomesAreFound, TopsAreFound, AddressesAreFound};
ghost use Rattle.mako_layout.specs.Found.{RecordsAreFound};
ghost use Rattle.mako_layout.specs.Frames.{PlacesAreApart};
ghost use Rattle.mako_layout.specs.Openings.{OpeningHolds};
ghost use Rattle.mako_layout.specs.Runs.{AllReachedHold, NewIsPublished, PutIsStored, OthersEnter};
ghost use Rattle.mako_layout.specs.Steps.{EachStepKeeps};

/// Each kind of change of a layout keeps one copy: a record that comes to stand in a home, an entry that is freed or
/// gets another epoch, a tablet that gives up its home, one that leaves its region for good, the end of a cycle and the
/// beginning of the next.
pub fn changes_keep_one_copy()
    ensures put { PutKeeps }
    ensures alter { AlterKeeps }
    ensures choose { ChooseKeeps }
    ensures clear { ClearKeeps }
    ensures finish { FinishKeeps }
    ensures cycle { CycleKeeps }
    ensures same { SameKeeps }
{}

/// What one copy says: a copy of a record of the cycle has room; when all have come home, the words in use are
/// theirs; and no word behind those in use is one of a record.
pub fn one_copy_tells()
    ensures fits { CopyFits }
    ensures moved { AllMoved }
    ensures free { FreeAbove }
{}

/// Which words a change of one word leaves.
pub fn words_are_apart()
    ensures { PlacesAreApart }
{}

/// Each kind of step keeps the invariant, for any number of mutators, servers, tablets and entries.
pub fn steps_keep()
    ensures { EachStepKeeps }
{}

/// The opening meets the invariant, for each geometry and each board that has room in a region.
pub fn opening_holds()
    ensures { OpeningHolds }
{}

/// The invariant holds after any list of steps from the opening on.
pub fn reached_hold()
    ensures { AllReachedHold }
{}

/// Where a new object's entry, and where a field is stored, the invariant holds with the point in the history; and
/// so it does with any other point, which changes no object.
pub fn points_enter()
    ensures new { NewIsPublished }
    ensures put { PutIsStored }
    ensures others { OthersEnter }
{}

/// A server that copies a tablet's records is alone there; who writes records of a tablet holds its turn or has
/// drained its gate; and it is one view at most.
pub fn writers_tell()
    ensures alone { ServersCopyAlone }
    ensures may { WritersMayWrite }
    ensures one { OneWriter }
{}

/// A view reads and stores at the present address of an entry, in the region that the home word names, and the
/// entry of a record that is copied is as the copy found it.
pub fn addresses_tell()
    ensures used { UsedIsPresent }
    ensures read { ReadIsPresent }
    ensures found { FoundIsPresent }
{}

/// Each taken entry has its record, whose words are the fields of the heap's object; records of two entries share
/// no word; and while nothing is chosen, they lie in their tablets' homes.
pub fn records_tell()
    ensures each { EachHasItsRecord }
    ensures apart { RecordsAreApart }
    ensures home { AllAreHomeAtRest }
{}

/// What the words of gates, homes, tops, entries and records are to a view that loads them.
pub fn words_found_fit()
    ensures gates { GatesAreFound }
    ensures homes { HomesAreFound }
    ensures tops { TopsAreFound }
    ensures addresses { AddressesAreFound }
    ensures records { RecordsAreFound }
{}

/// A copy that is begun has room, and so have all that are to come; the top of a tablet that leaves its region for
/// good is the sum of its records of the cycle; and no more words are in use than were made.
pub fn room_tells()
    ensures begun { BegunCopiesFit }
    ensures left { WhatIsLeftFits }
    ensures cleared { ClearedTopsAreExact }
    ensures made { UsedIsMade }
{}

/// Home words change in pauses alone, and words behind those in use by a step of the tablet's writer alone.
pub fn changes_are_known()
    ensures homes { HomesChangeInPauses }
    ensures words { FreeWordsAreTheWriters }
{}
