//! Worked examples: a mutator comes to use a record, a server copies one to a new home, and layouts that are wrong.

ghost use Rattle.mako_layout.specs.Examples.{WorkedUse, WorkedCopy, WrongLayouts};

/// From the opening a mutator comes to use the board's record, and never while the server has drained the tablet.
pub fn a_record_is_used()
    ensures { WorkedUse }
{}

/// The board's record is copied to its tablet's new home, which then leaves no region any more.
pub fn a_record_is_copied()
    ensures { WorkedCopy }
{}

/// No layout in which a record is left behind, not counted, shared, or in a region that is spare.
pub fn wrong_layouts_are_refused()
    ensures { WrongLayouts }
{}
