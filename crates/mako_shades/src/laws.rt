//! What holds while the servers trace a cycle, and what follows from it. The functions do nothing; what they ensure is
//! for contracts and proofs.

ghost use Rattle.mako_shades.specs.Laws.{NamesGiveTheHeap, TracingBegins, StepsKeepTracing, StepsFollow};
ghost use Rattle.mako_shades.specs.Laws.{LastFacetsCount, CompleteMarksTheGood, CompleteIsTraced, TracedStays};
ghost use Rattle.mako_shades.specs.Laws.{QuietHeapsStay, CompleteHeapsStay, UnmarkedAreOld, StacksHaveRoom};
ghost use Rattle.mako_shades.specs.Laws.{SlotNamesAreGood, HeldNamesAreGood, EpochsAreTraced, CompleteMarksAll};
ghost use Rattle.mako_shades.specs.Laws.{TracedGiveEpochs};

/// What ties entries and names to the front, with a record at the address of each object, is all that tracing asks of
/// words and history.
pub fn names_give_the_heap()
    ensures { NamesGiveTheHeap }
{}

/// The snapshot of a cycle, taken where the collector has the names of all roots and nothing else is on its way, makes
/// the tracing invariant true.
pub fn tracing_begins()
    ensures { TracingBegins }
{}

/// Each kind of step keeps it, for any number of mutators and servers; and so do two kinds in one atomic step, of which
/// the last says what the seat comes to.
pub fn tracing_is_kept()
    ensures steps { StepsKeepTracing }
    ensures follow { StepsFollow }
    ensures last { LastFacetsCount }
{}

/// Where the heap is complete, the marked names are exactly the good ones, and each taken entry is told to be that of a
/// good name or of a dead one; and what is told stays told until the next snapshot.
pub fn complete_tells()
    ensures good { CompleteMarksTheGood }
    ensures traced { CompleteIsTraced }
    ensures stays { TracedStays }
{}

/// A quiet heap stays quiet, but where the collector takes a name out of a barrier slot. A complete one stays complete,
/// but where a put fills its barrier slot.
pub fn rest_stays()
    ensures quiet { QuietHeapsStay }
    ensures complete { CompleteHeapsStay }
{}

/// A name that a server marks was made before the snapshot, and the server's stack has room for it.
pub fn servers_tell()
    ensures old { UnmarkedAreOld }
    ensures room { StacksHaveRoom }
{}

/// What the ties of names rest on while a cycle is traced: the names in slots and those that seats hold are good,
/// epochs are as they have to be, and where the heap is complete each name that was reachable at the snapshot has the
/// epoch. What is told of taken entries is what they rest on afterwards.
pub fn tracing_gives_names()
    ensures slots { SlotNamesAreGood }
    ensures held { HeldNamesAreGood }
    ensures epochs { EpochsAreTraced }
    ensures all { CompleteMarksAll }
    ensures traced { TracedGiveEpochs }
{}
