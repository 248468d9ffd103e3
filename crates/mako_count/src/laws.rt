//! Laws of the counting rule. The functions do nothing; what they ensure is for contracts and proofs.

ghost use Rattle.mako_count.specs.Ends.{ToldIsOver, WorkedExample};

/// Once a poller was told, no box, hand or send holds a piece, and all that was sent is handled.
pub fn told_is_over()
    ensures { ToldIsOver }
{}

/// A state in the middle of a count, where the rule holds and allows nothing to be told.
pub fn worked_example()
    ensures { WorkedExample }
{}
