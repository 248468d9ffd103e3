//! What is true of every legal history and of every front. Each law is the contract of a function
//! that has nothing to do.

ghost use Rattle.std.specs.Prelude.{◌≡◌, ◌≤◌, ◌↔◌, ◌++◌, ◌∷◌, [], ℕ, List};
ghost use mathlib.Core.List.{IsPrefix};
ghost use Rattle.std.specs.List.{Contains};
ghost use Rattle.mako_words.specs.declared.name.Name.{Name};
ghost use Rattle.mako_model.specs.declared.point.Point.{Point};
ghost use Rattle.mako_model.specs.Fronts.{Seen, BeginsWith, FollowsPrograms};
ghost use Rattle.mako_model.specs.Lawful.{IsLawful};
ghost use Rattle.mako_model.specs.Legal.{Facts, state_of, IsLegal};
ghost use Rattle.mako_model.specs.Dead.{names_made, IsDead, AreFreed};
ghost use Rattle.mako_model.specs.LawfulFronts.{IsLawfulFront};
ghost use Rattle.mako_model.specs.Laws.{HasObject, IsClosed, DeadStandApart, HasRoots, ProgramsFit, NamesFit};
ghost use Rattle.mako_model.specs.Laws.{ValuesFit, RootsFit};
ghost use Rattle.mako_model.specs.Sizes.{PointsKeepSmall};

/// What was made stays made.
pub fn made_names_stay()
    ensures { (start rest : List Point) (name : Name) → Contains (names_made start) name
        → Contains (names_made (start ++ rest)) name }
{}

/// The names made are those of the objects.
pub fn made_names_are_objects()
    ensures { (w : Facts) (history : List Point) (name : Name) → IsLegal w history
        → Contains (names_made history) name ↔ HasObject (state_of w history) name }
{}

/// A prefix of a legal history is legal.
pub fn legal_histories_have_legal_prefixes()
    ensures { (w : Facts) (start rest : List Point) → IsLegal w (start ++ rest) → IsLegal w start }
{}

/// A legal history with one lawful point more is legal.
pub fn legal_histories_grow()
    ensures { (w : Facts) (history : List Point) (point : Point) → IsLegal w history
        → IsLawful (state_of w history) point → IsLegal w (history ++ point ∷ []) }
{}

/// Each name that stands in a root or a field is that of an object.
pub fn heaps_are_closed()
    ensures { (w : Facts) (history : List Point) → IsLegal w history → IsClosed (state_of w history) }
{}

/// A front begins with itself.
pub fn fronts_begin_with_themselves()
    ensures { (front : Seen) → BeginsWith front front }
{}

/// What begins with a front begins with all that this front begins with.
pub fn fronts_begin_transitively()
    ensures { (a b c : Seen) → BeginsWith a b → BeginsWith b c → BeginsWith a c }
{}

/// Of two lawful fronts of which one begins with the other, the finished cycles do too.
pub fn finished_cycles_begin_with_those_before()
    ensures { (w : Facts) (whole front : Seen) → IsLawfulFront w whole → IsLawfulFront w front → BeginsWith whole front
        → IsPrefix front.finished whole.finished }
{}

/// A name that is dead in a cycle is dead in each later one that has begun.
pub fn dead_names_stay_dead()
    ensures { (w : Facts) (history : List Point) (cycle later : ℕ) (name : Name) → IsLegal w history → cycle ≤ later
        → later ≤ (state_of w history).snaps
        → IsDead w history cycle name → IsDead w history later name }
{}

/// A name that was dead in a cycle stands in no root, and in no field of an object that was not.
pub fn dead_names_stand_apart()
    ensures { (w : Facts) (history : List Point) (cycle : ℕ) → IsLegal w history → DeadStandApart w history cycle }
{}

/// The names that a cycle freed are one list.
pub fn freed_names_are_one_list()
    ensures { (w : Facts) (history : List Point) (cycle : ℕ) (a b : List Name) → AreFreed w history cycle a
        → AreFreed w history cycle b → a ≡ b }
{}

/// Each mutator keeps its roots, and no more snapshots are taken than there may be cycles.
pub fn heaps_keep_their_shape()
    ensures roots { (w : Facts) (history : List Point) → IsLegal w history → HasRoots w (state_of w history) }
    ensures snapshots { (w : Facts) (history : List Point) → IsLegal w history → (state_of w history).snaps ≤ w.cycles }
{}

/// Each value in a root or a field fits its word, where the numbers of the programs and all names do.
pub fn values_fit()
    ensures { (w : Facts) (front : Seen) → ProgramsFit w.programs → NamesFit w → IsLawfulFront w front
        → FollowsPrograms w.programs front.history → ValuesFit (state_of w front.history)
        × RootsFit (state_of w front.history) }
{}

/// No object has more than 14 fields: not at the opening, and not after a point that makes none with more.
pub fn objects_stay_small()
    ensures { PointsKeepSmall }
{}
