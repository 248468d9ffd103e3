//! The command that replays a workload and tells what came of it.

ghost use Rattle.std.specs.Prelude.{◌≡◌, ◌≤◌, ◌+◌, ◌++◌, ◌⊎◌, true, false, length, map, sum_by};
ghost use Rattle.mako_io.specs.Causes.{Rose};
ghost use Rattle.mako_model.specs.Outcomes.{AreCyclesOfFront, IsWhole, reply_lists};
ghost use Rattle.mako_cli.specs.Loads.{AreOfMutators, count_line, summary_text};
ghost use Rattle.mako_cli.specs.Settling.{EndsLoad, IsLoaded, IsTellable, IsTold, IsWritten, Loads, replay_status};
ghost use Rattle.mako_cli.specs.declared.settled.Settled.{Settled};

use crate::commands::tell;
use crate::ended::Ended;
use crate::settled::Settled;
use arrayvec::ArrayVec;
use itoa::Buffer;
use mako_gen::make;
use mako_io::Sink;
use mako_model::{Cycles, Outcome, Reply};
use mako_replay::{Order, Replayed, replay};
use mako_script::write_text;
use std::alloc::Global;

/// How many commands are drawn for each mutator.
const SIZE: u32 = 500;

/// The most steps of the replay.
const STEPS: u64 = 100_000_000;

/// Room for five lines, of which four have a number of at most 40 digits.
const SUMMARY_LEN: usize = 256;

type Summary = ArrayVec<u8, SUMMARY_LEN>;

/// Adds bytes to a summary that has room for them.
fn add(summary: &mut Summary, bytes: &[u8])
    requires { length summary.old.items + length bytes.now ≤ 256 }
    ensures { summary.new.items ≡ summary.old.items ++ bytes.now }
{
    if summary.try_extend_from_slice(bytes).is_err() {
        unreachable!()
    }
}

/// Adds a line of a word and a number.
fn add_line(summary: &mut Summary, word: &[u8], number: u128)
    requires { length summary.old.items + length word.now ≤ 215 }
    ensures text { summary.new.items ≡ summary.old.items ++ count_line word.now number }
    ensures short { length summary.new.items ≤ length summary.old.items + length word.now + 41 }
{
    let mut digits = Buffer::new();
    add(summary, word);
    add(summary, digits.format(number).as_bytes());
    add(summary, b"\n");
}

/// How many replies there are. The lengths are summed in 128 bits, so that no sum of them is too large.
fn count_replies(replies: &[Vec<Reply>]) -> u128
    ensures { result ≡ sum_by length (map (λ v. v.items) replies.now) }
{
    replies
        .iter()
        .map(|list| u128::from(list.len() as u64))
        .sum()
}

/// How many names the cycles freed, together.
fn count_freed(cycles: &Cycles) -> u128
    ensures { result ≡ sum_by length cycles.now.lists }
{
    let mut names = 0;
    for index in 0..cycles.len() {
        names += u128::from(cycles.freed(index + 1).len() as u64);
    }
    names
}

/// The summary of the replay of a workload with this number.
fn summary(number: u64, outcome: &Outcome, finished: bool) -> Summary
    requires whole { IsWhole outcome.now }
    requires freed { AreCyclesOfFront outcome.now }
    requires mutators { AreOfMutators (length (reply_lists outcome.now)) outcome.now.front.history }
    ensures { result.items ≡ summary_text number outcome.now.front finished }
{
    let last: &[u8] = if finished { b"end\n" } else { b"unfinished\n" };
    let mut summary = Summary::new();
    add_line(&mut summary, b"load ", u128::from(number));
    add_line(&mut summary, b"commands ", count_replies(&outcome.replies));
    add_line(
        &mut summary,
        b"cycles ",
        u128::from(outcome.cycles.len() as u64),
    );
    add_line(&mut summary, b"freed ", count_freed(&outcome.cycles));
    add(&mut summary, last);
    summary
}

/// Writes the summary of the replay of a workload with this number.
pub(crate) fn tell_summary<K: Sink>(sink: &mut K, number: u64, replayed: Replayed) -> Ended
    requires whole { IsWhole replayed.outcome }
    requires freed { AreCyclesOfFront replayed.outcome }
    requires mutators { AreOfMutators (length (reply_lists replayed.outcome)) replayed.outcome.front.history }
    ensures front { result.front ≡ replayed.outcome.front }
    ensures told { IsWritten (summary_text number replayed.outcome.front replayed.finished)
        (replay_status replayed.finished) (K.taken sink.old) (K.taken sink.new)
        (Rose (K.faults sink.old) (K.faults sink.new)) result.status }
    ensures counted { K.faults sink.old ≤ K.faults sink.new }
{
    let Replayed {
        outcome,
        finished,
        ..
    } = replayed;
    let whole = if finished {
        Settled::DONE
    } else {
        Settled::UNFINISHED
    };
    let status = match write_text(sink, &summary(number, &outcome, finished)) {
        Ok(()) => whole,
        Err(_) => Settled::WRITE_FAULT,
    };
    Ended {
        status,
        front: outcome.front,
    }
}

/// Makes the workload of a number, and replays it in the order that the same number gives.
fn load(alloc: Global, number: u64) -> Settled
    ensures loads { Loads number result }
    ensures tellable { IsTellable result }
{
    let Ok(script) = make(alloc, number, SIZE) else {
        return Settled::Memory;
    };
    let Ok(replayed) = replay(alloc, &script, Order::Seed(number), STEPS) else {
        return Settled::Memory;
    };
    Settled::Loaded(number, replayed)
}

/// Makes the workload of a number with 500 commands that are drawn for each mutator, replays it in the order that the
/// same number gives, with at most 100,000,000 steps, and writes a summary: how many commands were answered, how many
/// cycles finished, how many names they freed, and whether every mutator came to its end. The status is then 0, and
/// else 6. Want of memory, with status 5, comes only before the first step.
pub fn load_top<K: Sink>(alloc: Global, number: u64, sink: &mut K) -> Ended
    // Each status has its cause.
    ensures done { result.status ≡ 0 → IsLoaded number true (K.taken sink.old) (K.taken sink.new) result.front }
    ensures unfinished { result.status ≡ 6 →
        IsLoaded number false (K.taken sink.old) (K.taken sink.new) result.front }
    ensures write { result.status ≡ 4 → Rose (K.faults sink.old) (K.faults sink.new) }
    ensures others { (result.status ≡ 0) ⊎ ((result.status ≡ 6) ⊎ ((result.status ≡ 4) ⊎ (result.status ≡ 5))) }

    // And at the status of a write fault too the front is the one that another status would have.
    ensures settled { (settled : Settled) × Loads number settled
        × IsTold settled (K.taken sink.old) (K.taken sink.new) (Rose (K.faults sink.old) (K.faults sink.new)) result }

    // Where the sink does not fail, the status is 0, 6 or 5, and its text was written.
    ensures complete { ¬ Rose (K.faults sink.old) (K.faults sink.new) →
        EndsLoad number (K.taken sink.old) (K.taken sink.new) result }
{
    let settled = load(alloc, number);
    tell(alloc, sink, settled)
}
