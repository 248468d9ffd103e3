//! One step of any machine on any words.

ghost use Rattle.std.specs.Prelude.{◌≡◌};
ghost use Rattle.mako_step.specs.Acts.{words_stepped, finds};
ghost use Rattle.mako_step.specs.Machines.{CanStep, machine_stepped};
ghost use Rattle.mako_step.specs.Stepping.{stepped};

use crate::machine::Machine;
use crate::step::Step;
use crate::words::Words;

/// What one step of a machine came to.
#[derive(Clone, Copy, Debug, PartialEq, Eq)]
pub enum Stepped<E> {
    /// The machine was at its end, and nothing changed.
    Ended,
    /// The step was a look that found this word, and waits for another.
    Waiting(u64),
    /// Any other step, with what it tells.
    Moved(E),
}

/// Makes one step of the machine on the words.
pub fn make_step<M: Machine, W: Words>(machine: &mut M, words: &mut W) -> Stepped<M::Event>
where
    M::Event: Drop,
    requires { CanStep (M.next_of machine.old) (W.words words.old) (M.Fits machine.old) }
    ensures words { W.words words.new ≡ words_stepped (M.next_of machine.old) (W.words words.old) }
    ensures machine { let found = finds (M.next_of machine.old) (W.words words.old) in
        machine.new ≡ machine_stepped (M.next_of machine.old) machine.old (M.fed machine.old found) }
    ensures result { let found = finds (M.next_of machine.old) (W.words words.old) in
        result ≡ stepped (M.next_of machine.old) (M.is_waiting machine.old found) found (M.event_of machine.old found) }
{
    let Step::Do(act) = machine.next() else {
        return Stepped::Ended;
    };
    let found = words.act(act);
    let waits = machine.waits(found);
    let event = machine.feed(found);
    if waits {
        return Stepped::Waiting(found);
    }
    Stepped::Moved(event)
}
