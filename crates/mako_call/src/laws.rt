//! Laws of attempts, over the machine alone. The functions do nothing; what they ensure is for contracts and proofs.

ghost use Rattle.mako_call.specs.Calls.{RanksAreSmall};
ghost use Rattle.mako_call.specs.Causes.{OutcomesAreCaused, ShutGatesStop};
ghost use Rattle.mako_call.specs.Deciding.{PointsAreDecided, AnswersOnce};

/// Which step decides a call, and what its point is: a function of the words that the attempt found.
pub fn deciding()
    ensures { PointsAreDecided }
{}

/// An attempt that comes to an answer tells one point, and any other none.
pub fn answers()
    ensures { AnswersOnce }
{}

/// A pause, and the finding that there is no room, come only where the attempt's trail shows their
/// cause; and a shut gate of its own lets an attempt come to nothing else.
pub fn outcomes()
    ensures causes { OutcomesAreCaused }
    ensures stopped { ShutGatesStop }
{}

/// An attempt takes at most `entries + 6` steps for each tablet, and 64 beyond them.
pub fn ranks()
    ensures { RanksAreSmall }
{}
