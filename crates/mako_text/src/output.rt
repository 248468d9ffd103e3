//! The printed output of a run.

ghost use Rattle.std.specs.Prelude.{◌≡◌, ◌≤◌, length, map, OnErr, OnOk, IfErr};
ghost use Rattle.std.specs.Io.KnownBytes.{Appends};
ghost use Rattle.mako_io.specs.Causes.{Rose};
ghost use Rattle.mako_model.specs.Fronts.{FollowsPrograms};
ghost use Rattle.mako_model.specs.Outcomes.{IsWhole, AreCyclesOfFront, reply_lists};
ghost use Rattle.mako_text.specs.Outputs.{output_text, WentOut};

use crate::script::Script;
use crate::writer::OutputWriter;
use mako_io::{Sink, WriteFault};
use mako_model::Outcome;

/// Writes the output of a run, line by line: each mutator's points, the finished cycles, and whether
/// the run went to the end. A fault counts the bytes of the whole text that went out, up to the
/// greatest number. It takes no memory.
pub fn write_output<K: Sink>(
    sink: &mut K,
    script: &Script,
    outcome: &Outcome,
    finished: bool,
) -> Result<(), WriteFault>
    requires whole { IsWhole outcome.now }
    requires freed { AreCyclesOfFront outcome.now }
    requires lists { length (reply_lists outcome.now) ≡ length script.now.programs }
    requires follows { FollowsPrograms (map (λ p. p.calls) script.now.programs) outcome.now.front.history }
    ensures written { OnOk result (Appends (K.taken sink.old) (K.taken sink.new)
        (output_text (length script.now.programs) outcome.now.front finished)) }
    ensures went { IfErr result (λ fault. WentOut (output_text (length script.now.programs) outcome.now.front finished)
        (K.taken sink.old) (K.taken sink.new) 0 fault.went) }
    ensures fault { OnErr result (Rose (K.faults sink.old) (K.faults sink.new)) }
    ensures counted { K.faults sink.old ≤ K.faults sink.new }
{
    OutputWriter::new(sink).output(&script.programs, outcome, finished)
}
