//! Worked examples: an object that is made, and a gate that is found shut.

ghost use Rattle.mako_alloc.specs.Causes.{IsFull, IsMade};
ghost use Rattle.mako_alloc.specs.Examples as example;
ghost use Rattle.mako_alloc.specs.Notes.{IsFirstNote};
ghost use Rattle.mako_alloc.specs.Standings.{StandsBy};
ghost use Rattle.mako_gate.specs.Standings.{with_turn};

/// Ten observations make the object 0#1 in tablet 0, and leave its turn held.
pub fn an_object_is_made()
    ensures made { IsMade example.job example.making example.made 0 }
    ensures standing { StandsBy example.job.shape example.making (with_turn 0) }
{}

/// A gate that is found shut is the note, and then the tablet was not full.
pub fn a_gate_is_found_shut()
    ensures note { IsFirstNote example.job example.shut_out example.found_shut }
    ensures not_full { ¬ IsFull example.job example.shut_out }
{}
