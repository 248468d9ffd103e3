//! Laws of a server's turn and of its tracing. The functions do nothing; what they ensure is for contracts and proofs.

ghost use Rattle.mako_tracing.specs.Laws.{EmptySlotsBelong, OpeningServersStand};
ghost use Rattle.mako_tracing.specs.Laws.{OpeningsKeep, StoresLeaveSlots, TracingCanGo, TracingStepsGo, TurnsCanGo};
ghost use Rattle.mako_tracing.specs.Laws.{TurnsGo};
ghost use Rattle.mako_tracing.specs.Resting.{MeasuredStays, QuietServersAreUnladen, UnladenServersRest};
ghost use Rattle.mako_tracing.specs.ServerLives.{CountsStayLow, TracingCounts, TracingLeavesCounts, TurnsCount};
ghost use Rattle.mako_tracing.specs.ServerLives.{TurnsLeaveCounts};

/// A server's turn on the phase keeps all groups, whichever phase it finds.
pub fn turns_keep_all()
    ensures { TurnsGo }
{}

/// Each step of a server's tracing keeps all groups: it sends a name, scans a record, takes a name out of a ring, marks
/// an entry and counts its words, or rests.
pub fn tracing_keeps_all()
    ensures { TracingStepsGo }
{}

/// Each act of a server at its turn or in its tracing is of a word that there is, and finds what the machine can go on
/// with, where no object has many fields and the server's counts are far from their bound.
pub fn servers_can_go()
    ensures turns { TurnsCanGo }
    ensures tracing { TracingCanGo }
{}

/// A server's turn and each step of its tracing keep the live counts, which are far from their bound.
pub fn counts_are_kept()
    ensures turns { TurnsCount }
    ensures tracing { TracingCounts }
    ensures low { CountsStayLow }
{}

/// Where no cycle is traced, these steps store no live word, and leave what live counts read of the server.
pub fn counts_are_left()
    ensures turns { TurnsLeaveCounts }
    ensures tracing { TracingLeavesCounts }
{}

/// What a server keeps of itself holds before its first turn, and all of it stands at the opening of all groups. The
/// names in slots belong where all slots are empty, and after each store that fills no slot, or fills one with a name
/// of its taker's own.
pub fn servers_begin_and_slots_stay()
    ensures opening { OpeningsKeep }
    ensures empty { EmptySlotsBelong }
    ensures stores { StoresLeaveSlots }
    ensures all { OpeningServersStand }
{}

/// A server that is not laden, as the order of the phases reads it, has nothing to trace. In a quiet heap no server is
/// laden. A record that was measured keeps its size.
pub fn servers_rest()
    ensures unladen { UnladenServersRest }
    ensures quiet { QuietServersAreUnladen }
    ensures measured { MeasuredStays }
{}
