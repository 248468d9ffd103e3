//! A worked example: a dead object is freed, and its name told before the end.

ghost use Rattle.mako_evac.specs.Examples as example;
ghost use Rattle.mako_evac.specs.Rising.{RunsTo};

/// Eight observations free the object 0#0 of a server that has no other, and leave the one notice slot due again.
pub fn a_dead_object_is_freed()
    ensures { RunsTo example.owner 0 example.freeing example.freed 0 }
{}
