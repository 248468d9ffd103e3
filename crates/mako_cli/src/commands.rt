//! The top call, and the call of the command that it knows.

ghost use Rattle.std.specs.Prelude.{◌≡◌, ◌≤◌, ◌⊎◌, [], true, false, length, map, string_bytes};
ghost use Rattle.mako_io.specs.Causes.{Rose};
ghost use Rattle.mako_model.specs.Fronts.{FollowsPrograms};
ghost use Rattle.mako_model.specs.Outcomes as outcomes;
ghost use Rattle.mako_script.specs.Outputs.{output_text};
ghost use Rattle.mako_command.specs.CommandLines.{SayNothing, Says};
ghost use Rattle.mako_cli.specs.Settling.{Commands, EndsGen, EndsReplay, EndsWell, Generates, HasOutput, IsDoneBy};
ghost use Rattle.mako_cli.specs.Settling.{IsLeftBy};
ghost use Rattle.mako_cli.specs.Settling.{IsPrinted, IsTellable, IsTold, IsToldUnread, IsWritten, Settles};
ghost use Rattle.mako_cli.specs.Settling.{replay_status};
ghost use Rattle.mako_command.specs.declared.line.CommandLine.{CommandLine};
ghost use Rattle.mako_cli.specs.declared.settled.Settled.{Settled};

use crate::count::{count_top, handled_line};
use crate::ended::Ended;
use crate::load::{load_top, tell_summary};
use crate::settled::Settled;
use mako_command::{CommandLine, command_line};
use mako_gen::make;
use mako_io::{ReadRefusal, Sink, Source, read_all, write_all};
use mako_model::Front;
use mako_replay::{Order, Replayed, replay};
use mako_script::{Kind, Script, ScriptFault, fault_line, parse, print, write_output, write_text};
use std::alloc::Global;
use std::sync::Wait;
use std::thread::Threads;

/// The greatest number of bytes of a script.
const MAX_BYTES: usize = 16_777_216;

/// Reads a script and carries it out in this order, with at most so many steps.
fn settle<S: Source>(alloc: Global, order: Order, steps: u64, source: &mut S) -> Settled
    requires { steps ≤ 1000000000 }
    ensures settled { Settles order steps (S.left source.old) (S.left source.new)
        (Rose (S.faults source.old) (S.faults source.new)) result }
    ensures tellable { IsTellable result }
    ensures counted { S.faults source.old ≤ S.faults source.new }
{
    let bytes = match read_all(alloc, source, MAX_BYTES) {
        Ok(bytes) => bytes,
        Err(ReadRefusal::Fault) => return Settled::ReadFault,
        Err(ReadRefusal::TooLong) => {
            return Settled::NoScript {
                kind: Kind::Long,
                line: 0,
            };
        }
        Err(ReadRefusal::Memory) => return Settled::Memory,
    };
    let script = match parse(alloc, &bytes) {
        Ok(script) => script,
        Err(ScriptFault::Bad { kind, line }) => return Settled::NoScript { kind, line },
        Err(ScriptFault::Memory) => return Settled::Memory,
    };
    let Ok(replayed) = replay(alloc, &script, order, steps) else {
        return Settled::Memory;
    };
    Settled::Replayed(script, replayed)
}

/// Writes the one line of a command that carried out no script.
fn tell_line<K: Sink>(alloc: Global, sink: &mut K, text: &[u8], status: u8) -> Ended
    ensures written { IsWritten text.now status (K.taken sink.old) (K.taken sink.new)
        (Rose (K.faults sink.old) (K.faults sink.new)) result.status }
    ensures front { result.front ≡ record { history = []; finished = [] } }
    ensures counted { K.faults sink.old ≤ K.faults sink.new }
{
    let status = match write_all(sink, text) {
        Ok(()) => status,
        Err(_) => Settled::WRITE_FAULT,
    };
    Ended {
        status,
        front: Front::empty(alloc),
    }
}

/// Writes the text of what a command came to.
pub(crate) fn tell<K: Sink>(alloc: Global, sink: &mut K, settled: Settled) -> Ended
    requires { IsTellable settled }
    ensures told { IsTold settled (K.taken sink.old) (K.taken sink.new)
        (Rose (K.faults sink.old) (K.faults sink.new)) result }
    ensures counted { K.faults sink.old ≤ K.faults sink.new }
{
    match settled {
        Settled::Replayed(script, replayed) => tell_run(sink, &script, replayed),
        Settled::Generated(text) => tell_text(alloc, sink, &text),
        Settled::Counted(pieces) => tell_line(alloc, sink, &handled_line(pieces), Settled::DONE),
        Settled::Loaded(number, replayed) => tell_summary(sink, number, replayed),
        Settled::Usage => tell_line(alloc, sink, b"usage\n", Settled::USAGE),
        Settled::NoScript { kind, line } => {
            tell_line(alloc, sink, &fault_line(kind, line), Settled::NO_SCRIPT)
        }
        Settled::ReadFault => tell_line(alloc, sink, b"read fault\n", Settled::READ_FAULT),
        Settled::Memory => tell_line(alloc, sink, b"memory\n", Settled::MEMORY),
    }
}

/// Writes the lines of a text.
fn tell_text<K: Sink>(alloc: Global, sink: &mut K, text: &[u8]) -> Ended
    ensures written { IsWritten text.now 0 (K.taken sink.old) (K.taken sink.new)
        (Rose (K.faults sink.old) (K.faults sink.new)) result.status }
    ensures front { result.front ≡ record { history = []; finished = [] } }
    ensures counted { K.faults sink.old ≤ K.faults sink.new }
{
    let status = match write_text(sink, text) {
        Ok(()) => Settled::DONE,
        Err(_) => Settled::WRITE_FAULT,
    };
    Ended {
        status,
        front: Front::empty(alloc),
    }
}

/// Writes the output of a replay.
fn tell_run<K: Sink>(sink: &mut K, script: &Script, replayed: Replayed) -> Ended
    requires whole { outcomes.IsWhole replayed.outcome }
    requires freed { outcomes.AreCyclesOfFront replayed.outcome }
    requires lists { length (outcomes.reply_lists replayed.outcome) ≡ length script.now.programs }
    requires follows { FollowsPrograms (map (λ p. p.calls) script.now.programs) replayed.outcome.front.history }
    ensures front { result.front ≡ replayed.outcome.front }
    ensures told { IsWritten (output_text (length script.now.programs) replayed.outcome.front replayed.finished)
        (replay_status replayed.finished) (K.taken sink.old) (K.taken sink.new)
        (Rose (K.faults sink.old) (K.faults sink.new)) result.status }
    ensures counted { K.faults sink.old ≤ K.faults sink.new }
{
    let Replayed {
        outcome,
        finished,
        ..
    } = replayed;
    let whole = if finished {
        Settled::DONE
    } else {
        Settled::UNFINISHED
    };
    let status = match write_output(sink, script, &outcome, finished) {
        Ok(()) => whole,
        Err(_) => Settled::WRITE_FAULT,
    };
    Ended {
        status,
        front: outcome.front,
    }
}

/// Reads a script from the source, carries it out in this order with at most so many atomic steps, and writes its
/// output to the sink. The status is 0 where every mutator came to its end, and 6 where the steps were spent before.
/// Want of memory, with status 5, comes only before the first step.
pub fn replay_top<S: Source, K: Sink>(
    alloc: Global,
    order: Order,
    steps: u64,
    source: &mut S,
    sink: &mut K,
) -> Ended
    requires { steps ≤ 1000000000 }
    // Each status has its cause.
    ensures done { result.status ≡ 0 →
        HasOutput true order steps (S.left source.old) (S.left source.new) (K.taken sink.old)
        (K.taken sink.new) result.front }
    ensures unfinished { result.status ≡ 6 →
        HasOutput false order steps (S.left source.old) (S.left source.new) (K.taken sink.old)
        (K.taken sink.new) result.front }
    ensures refused { result.status ≡ 2
        → IsToldUnread (S.left source.old) (S.left source.new) (K.taken sink.old) (K.taken sink.new) }
    ensures read { result.status ≡ 3 → Rose (S.faults source.old) (S.faults source.new) }
    ensures write { result.status ≡ 4 → Rose (K.faults sink.old) (K.faults sink.new) }

    // And at the status of a write fault too the front is the one that another status would have.
    ensures settled { (settled : Settled)
        × Settles order steps (S.left source.old) (S.left source.new)
        (Rose (S.faults source.old) (S.faults source.new)) settled
        × IsTold settled (K.taken sink.old) (K.taken sink.new) (Rose (K.faults sink.old) (K.faults sink.new)) result }

    // Where no stream fails, the status is 0, 6, 2 or 5, and its text was written.
    ensures complete { ¬ Rose (S.faults source.old) (S.faults source.new)
        → ¬ Rose (K.faults sink.old) (K.faults sink.new) →
        EndsReplay order steps (S.left source.old) (S.left source.new) (K.taken sink.old) (K.taken sink.new) result }
{
    let settled = settle(alloc, order, steps, source);
    tell(alloc, sink, settled)
}

/// Generates the workload of a seed, and its text.
fn generate(alloc: Global, seed: u64, size: u32) -> Settled
    requires { (1 ≤ size) × (size ≤ 4096) }
    ensures generates { Generates seed size result }
    ensures tellable { IsTellable result }
{
    let Ok(script) = make(alloc, seed, size) else {
        return Settled::Memory;
    };
    match print(alloc, &script) {
        Ok(text) => Settled::Generated(text),
        Err(_) => Settled::Memory,
    }
}

/// Writes the workload of a seed, with so many commands that are drawn for each mutator.
pub fn gen_top<K: Sink>(alloc: Global, seed: u64, size: u32, sink: &mut K) -> Ended
    requires { (1 ≤ size) × (size ≤ 4096) }
    // Each status has its cause.
    ensures done { result.status ≡ 0 → IsPrinted seed size (K.taken sink.old) (K.taken sink.new) result.front }
    ensures write { result.status ≡ 4 → Rose (K.faults sink.old) (K.faults sink.new) }
    ensures others { (result.status ≡ 0) ⊎ ((result.status ≡ 4) ⊎ (result.status ≡ 5)) }

    // And at the status of a write fault the text is a prefix of that of another status.
    ensures settled { (settled : Settled) × Generates seed size settled
        × IsTold settled (K.taken sink.old) (K.taken sink.new) (Rose (K.faults sink.old) (K.faults sink.new)) result }

    // Where the sink does not fail, the status is 0 or 5, and its text was written.
    ensures complete { ¬ Rose (K.faults sink.old) (K.faults sink.new)
        → EndsGen seed size (K.taken sink.old) (K.taken sink.new) result }
{
    let settled = generate(alloc, seed, size);
    tell(alloc, sink, settled)
}

/// Carries out the command that the words of the command line say, over this source and this sink. A count waits for
/// its threads, and may wait for ever; every other command returns.
pub fn top<R: Threads + Wait + Sync, S: Source, K: Sink>(
    rt: &R,
    alloc: Global,
    words: &[String],
    source: &mut S,
    sink: &mut K,
) -> Ended
    // Status 1 comes only where the words say no command; and where they say none it is 1, or that of a write fault or
    // of want of memory.
    ensures usage { result.status ≡ 1 → SayNothing (map string_bytes words.now) }
    ensures other { SayNothing (map string_bytes words.now) → (result.status ≡ 1)
        ⊎ ((result.status ≡ 4) ⊎ (result.status ≡ 5)) }

    // Each status has its cause.
    ensures done { result.status ≡ 0 → (line : CommandLine) × Says (map string_bytes words.now) line
        × IsDoneBy line (S.left source.old) (S.left source.new) (K.taken sink.old) (K.taken sink.new) result.front }
    ensures unfinished { result.status ≡ 6 → (line : CommandLine) × Says (map string_bytes words.now) line
        × IsLeftBy line (S.left source.old) (S.left source.new) (K.taken sink.old) (K.taken sink.new) result.front }
    ensures refused { result.status ≡ 2
        → IsToldUnread (S.left source.old) (S.left source.new) (K.taken sink.old) (K.taken sink.new) }
    ensures read { result.status ≡ 3 → Rose (S.faults source.old) (S.faults source.new) }
    ensures write { result.status ≡ 4 → Rose (K.faults sink.old) (K.faults sink.new) }

    // And at the status of a write fault too the front is the one that another status would have.
    ensures settled { (settled : Settled)
        × Commands (map string_bytes words.now) (S.left source.old) (S.left source.new)
        (Rose (S.faults source.old) (S.faults source.new)) settled
        × IsTold settled (K.taken sink.old) (K.taken sink.new) (Rose (K.faults sink.old) (K.faults sink.new)) result }

    // Where no stream fails, the status is 0, 1, 2, 5 or 6, and its text was written.
    ensures complete { ¬ Rose (S.faults source.old) (S.faults source.new)
        → ¬ Rose (K.faults sink.old) (K.faults sink.new) →
        EndsWell (map string_bytes words.now) (S.left source.old) (S.left source.new) (K.taken sink.old)
        (K.taken sink.new) result }
{
    let Ok(line) = command_line(alloc, words) else {
        return tell(alloc, sink, Settled::Memory);
    };
    match line {
        Some(CommandLine::Replay { order, steps }) => replay_top(alloc, order, steps, source, sink),
        Some(CommandLine::Gen { seed, size }) => gen_top(alloc, seed, size, sink),
        Some(CommandLine::Count { workers }) => count_top(rt, alloc, workers, sink),
        Some(CommandLine::Load { number }) => load_top(alloc, number, sink),
        None => tell(alloc, sink, Settled::Usage),
    }
}
