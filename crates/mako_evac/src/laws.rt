//! Laws of the machine of an evacuation, over whole trails. The functions do nothing; what they ensure is for contracts
//! and proofs.

ghost use Rattle.mako_evac.specs.Evidence.{EvacuationsGo};
ghost use Rattle.mako_evac.specs.Rising.{EvacuationsEnd};

/// At every moment the trail of an evacuation shows, in order, all that it has to have made by then, and nothing else:
/// no record is copied before its tablet's gate was shut and a look found nobody counted there, and a tablet that was
/// left is cleared and reopened before the next. At its end each own entry was passed, the names of the freed ones
/// were told in rising order, and the end was told last.
pub fn evacuations()
    ensures goes { EvacuationsGo }
    ensures ends { EvacuationsEnd }
{}
