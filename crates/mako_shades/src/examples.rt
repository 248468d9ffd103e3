//! Worked examples: a small heap at its first snapshot, and states of it that are refused.

ghost use Rattle.mako_shades.specs.Examples.{small, small_facts, small_words, small_seats, small_history};
ghost use Rattle.mako_shades.specs.Examples.{forgetful_seats, inventive_seats, hasty_seats, words_too_soon};
ghost use Rattle.mako_shades.specs.Examples.{linked_words, linked_seats, linked_history};
ghost use Rattle.mako_shades.specs.Holding.{TracingHolds};
ghost use Rattle.mako_shades.specs.Serving.{Tracks};
ghost use Rattle.mako_shades.specs.Stands.{HeapStands};

/// At the first snapshot of a small heap, where the collector has the name of its only root, all that is asked is met.
pub fn a_small_heap_is_traced()
    ensures stands { HeapStands small small_facts small_words small_history }
    ensures tracks { Tracks small small_facts small_words small_seats small_history 1 }
{}

/// But not where the collector forgot that name, where it has one that was never made, or where the server has an entry
/// on its stack that is not marked.
pub fn stray_names_are_refused()
    ensures forgotten { ¬ TracingHolds small small_facts small_words forgetful_seats small_history 1 }
    ensures unmade { ¬ TracingHolds small small_facts small_words inventive_seats small_history 1 }
    ensures unmarked { ¬ Tracks small small_facts small_words hasty_seats small_history 1 }
{}

/// And not where an entry is taken for which no name was made.
pub fn words_alone_make_no_objects()
    ensures { ¬ HeapStands small small_facts words_too_soon small_history }
{}

/// The board's field names an object that no root names, and the board is marked. Where its entry is on the server's
/// stack the invariant holds: the field is still to be read.
pub fn an_object_is_still_to_be_found()
    ensures { TracingHolds small small_facts linked_words linked_seats linked_history 1 }
{}

/// Where nobody is still to read it, while the object is neither marked nor on its way to be, the object would be lost.
pub fn an_object_passed_over_is_refused()
    ensures { ¬ TracingHolds small small_facts linked_words forgetful_seats linked_history 1 }
{}
