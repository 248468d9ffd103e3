//! Worked examples: the opening of a small heap is in order, and not with any part of a cycle in its place; and what is
//! chosen there.

ghost use Rattle.std.specs.Prelude.{◌≡◌, [], ◌∷◌};
ghost use Rattle.mako_names.specs.Examples.{small};
ghost use Rattle.mako_phases.specs.Choosing.{chosen_upto};
ghost use Rattle.mako_phases.specs.Examples.{opened, traced_too_soon, shaded_too_soon, leaving_too_soon, told_too_soon};
ghost use Rattle.mako_phases.specs.Examples.{ended_too_soon, all_live};
ghost use Rattle.mako_phases.specs.Steps.{PhaseOrderIn};

/// The opening is in order.
pub fn an_opening_is_in_order()
    ensures { PhaseOrderIn small opened }
{}

/// But not where the phase is Trace, a name is on its way, a tablet is leaving, or a server tells that it is done, or
/// has ended a cycle that has not begun.
pub fn no_part_of_a_cycle_stands_alone()
    ensures traced { ¬ PhaseOrderIn small traced_too_soon }
    ensures shaded { ¬ PhaseOrderIn small shaded_too_soon }
    ensures leaving { ¬ PhaseOrderIn small leaving_too_soon }
    ensures told { ¬ PhaseOrderIn small told_too_soon }
    ensures ended { ¬ PhaseOrderIn small ended_too_soon }
{}

/// Of the opening the one tablet is chosen, since no live word counts the words of the board; not where the live word
/// of the cycle counts them; and again in the next cycle, in which that live word is past.
pub fn a_tablet_is_chosen_by_its_live_word()
    ensures none { chosen_upto small opened.words 1 1 ≡ 0 ∷ [] }
    ensures all { chosen_upto small all_live 1 1 ≡ [] }
    ensures past { chosen_upto small all_live 2 1 ≡ 0 ∷ [] }
{}
