//! Laws of mutators among all seats. The functions do nothing; what they ensure is for contracts and proofs.

ghost use Rattle.mako_sitting_mutators.specs.MutatorSteps.{MutatorsCanGo, MutatorsKeepAll};

/// A mutator can make its next step (`go`), and the step keeps all groups and all seats (`keep`): in each call, with
/// its barrier, its moves and its news, where it waits for a cycle, and at the end of its program.
pub fn mutators_keep_all_seats()
    ensures go { MutatorsCanGo }
    ensures keep { MutatorsKeepAll }
{}
