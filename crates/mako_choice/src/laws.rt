//! What is true of the choice. Each law is a contract, and its function has nothing to do.

ghost use Rattle.std.specs.Prelude.{[], ◌∷◌};
ghost use Rattle.mako_choice.specs.Choices.{ChoicesAreOne, IsChoice};
ghost use Rattle.mako_choice.specs.Examples.{four_tablets};

/// There is one choice: whatever is a choice of the same tablets is the same list, the one that the definition
/// computes.
pub fn choices_are_one()
    ensures { ChoicesAreOne }
{}

/// The choice of four tablets, with two spare regions and with more than enough, and that of none.
pub fn examples()
    ensures two { IsChoice four_tablets 2 (2 ∷ 1 ∷ []) }
    ensures three { IsChoice four_tablets 8 (2 ∷ 1 ∷ 3 ∷ []) }
    ensures none { IsChoice [] 8 [] }
{}
