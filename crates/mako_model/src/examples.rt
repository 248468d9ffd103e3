//! Worked examples: two objects that name each other, and that nothing else names; an entry that had
//! its last object; one that is used again; entries whose objects are all in use; and an object that
//! names itself.

ghost use Rattle.mako_model.specs.Answering.{Answers, AnswersToEnd};
ghost use Rattle.mako_model.specs.Examples.{tied, tied_front, half_freed_front, retiring, retired_front, hasty_front};
ghost use Rattle.mako_model.specs.Examples.{roomy, reused_front, reused_too_soon, crowded, crowded_front};
ghost use Rattle.mako_model.specs.Examples.{used_freed_front, looped, looped_front, twice_freed_front};

/// The front in which the cycle frees both answers the script to its end.
pub fn objects_that_name_each_other_are_freed()
    ensures { AnswersToEnd tied tied_front }
{}

/// That in which it frees one of them alone does not answer it.
pub fn none_of_them_is_left()
    ensures { ¬ Answers tied half_freed_front }
{}

/// A new object finds no room where the one entry that is left had its last object.
pub fn a_retired_entry_is_no_room()
    ensures { AnswersToEnd retiring retired_front }
{}

/// But there is no such answer before a cycle has finished.
pub fn no_room_is_known_after_a_cycle()
    ensures { ¬ Answers retiring hasty_front }
{}

/// The entry of an object that was dead at a snapshot is used again.
pub fn a_dead_entry_is_used_again()
    ensures { AnswersToEnd roomy reused_front }
{}

/// But it is not used again before.
pub fn an_entry_is_used_again_after_a_snapshot()
    ensures { ¬ Answers roomy reused_too_soon }
{}

/// A new object finds no room where each entry has an object that is in use.
pub fn objects_in_use_leave_no_room()
    ensures { AnswersToEnd crowded crowded_front }
{}

/// No cycle makes room by freeing one of them.
pub fn no_object_in_use_is_freed()
    ensures { ¬ Answers crowded used_freed_front }
{}

/// An object that names itself is freed in the first cycle after it was dropped.
pub fn an_object_that_names_itself_is_freed()
    ensures { AnswersToEnd looped looped_front }
{}

/// The next cycle does not free it again.
pub fn an_object_is_freed_once()
    ensures { ¬ Answers looped twice_freed_front }
{}
