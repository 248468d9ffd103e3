//! Laws of gates. The functions do nothing; what they ensure is for contracts and proofs.

ghost use Rattle.std.specs.Prelude.{ℕ, List};
ghost use Rattle.mako_shape.specs.declared.numbers.Numbers.{Numbers};
ghost use Rattle.mako_shape.specs.Places.{Place};
ghost use Rattle.mako_gate.specs.Runs.{ArrivalsRun, DeparturesRun, ShutdownsRun, ReopeningsRun};
ghost use Rattle.mako_gate.specs.Changes.{ActsMake};
ghost use Rattle.mako_gate.specs.Examples.{WorkedRun};
ghost use Rattle.mako_gate.specs.SingleGates.{SinglesTell};
ghost use Rattle.mako_gate.specs.Standings.{GateFacet};
ghost use Rattle.mako_gate.specs.Gates.{Gates};
ghost use Rattle.mako_gate.specs.GateLaws.{StepsKeepGates, ActionsAreSteps, OpeningsHaveGates, ReachedHaveGates};
ghost use Rattle.mako_gate.specs.GateLaws.{GatesTell};

/// What each machine makes from its beginning to its end, whatever words its acts find.
pub fn runs()
    ensures arrivals { ArrivalsRun }
    ensures departures { DeparturesRun }
    ensures shuttings { ShutdownsRun }
    ensures reopenings { ReopeningsRun }
{}

/// An act on the word of a place changes the words, read by place, as the law of gates has it.
pub fn acts_by_place()
    ensures { ActsMake }
{}

/// Gates and turns are kept by each step of one view that has the general form, and each act has that form:
/// arrivals, departures, shuts, looks, reopenings, and turns taken and given.
pub fn gates_are_kept()
    ensures steps { StepsKeepGates }
    ensures actions { ActionsAreSteps }
{}

/// With no gate shut, nobody there and no turn taken, the law of gates holds.
pub fn opening_gates()
    ensures { OpeningsHaveGates }
{}

/// The law of gates holds after any list of acts, of any number of seats.
pub fn gates_hold_always()
    ensures { ReachedHaveGates }
{}

/// What the law of gates says: the count is that of the views that arrived and have not left; a drained gate is
/// shut and has nobody inside; a turn word names its holder; one view at most writes in a tablet.
pub fn gates_tell()
    ensures { (n : Numbers) (W : Place → ℕ) (gs : List GateFacet) → Gates n W gs → GatesTell n W gs }
{}

/// What the word of one gate says after any list of arrivals, departures, shuts, looks and reopenings there, in
/// whatever order and whatever the views do at other gates.
pub fn single_gates_tell()
    ensures { SinglesTell }
{}

/// A worked run of the acts: a mutator's gate is entered, shut, left, drained and reopened.
pub fn worked_run()
    ensures { WorkedRun }
{}
