//! Worked examples: the opening of a small heap, and two of its entries after a cycle freed one of them.

ghost use Rattle.std.specs.Prelude.{true, false};
ghost use Rattle.mako_model.specs.Examples.{roomy};
ghost use Rattle.mako_names.specs.Examples.{small, opened, taken_too_soon, traced_too_soon, freed_front};
ghost use Rattle.mako_names.specs.Steps.{NamesHoldIn};
ghost use Rattle.mako_names.specs.Tables.{EntryStands};

/// The opening has the ties of names.
pub fn an_opening_has_its_names()
    ensures { NamesHoldIn small roomy opened }
{}

/// But not where an entry is taken for which no name was made, or where a cycle runs that has no snapshot.
pub fn words_alone_make_no_names()
    ensures taken { ¬ NamesHoldIn small roomy taken_too_soon }
    ensures traced { ¬ NamesHoldIn small roomy traced_too_soon }
{}

/// The entry of a dead object is free, with the next generation, in the cycle that freed it.
pub fn the_entry_of_a_dead_name_is_free()
    ensures { EntryStands roomy freed_front 1 1 false 1 }
{}

/// It is not taken for the dead name any more, it is not free with the old generation, and in cycle 0 it was not
/// free yet.
pub fn it_is_freed_once()
    ensures kept { ¬ EntryStands roomy freed_front 1 1 true 0 }
    ensures again { ¬ EntryStands roomy freed_front 1 1 false 0 }
    ensures early { ¬ EntryStands roomy freed_front 0 1 false 1 }
{}

/// The entry of an object in use is taken, and not free.
pub fn the_entry_of_a_used_name_is_taken()
    ensures taken { EntryStands roomy freed_front 1 2 true 0 }
    ensures freed { ¬ EntryStands roomy freed_front 1 2 false 1 }
{}
