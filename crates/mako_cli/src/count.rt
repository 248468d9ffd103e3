//! The command that counts the pieces of a ring of workers on threads.

ghost use Rattle.std.specs.Prelude.{◌≡◌, ◌≤◌, ◌+◌, ◌++◌, ◌⊎◌, length};
ghost use Rattle.mako_io.specs.Causes.{Rose};
ghost use Rattle.mako_cli.specs.Counts.{handled_text};
ghost use Rattle.mako_cli.specs.Settling.{Counts, EndsCount, IsHandled, IsTellable, IsTold};
ghost use Rattle.mako_cli.specs.declared.settled.Settled.{Settled};

use crate::commands::tell;
use crate::ended::Ended;
use crate::settled::Settled;
use arrayvec::ArrayVec;
use itoa::Buffer;
use mako_count::count_pieces;
use mako_io::Sink;
use std::alloc::Global;
use std::sync::Wait;
use std::thread::Threads;

/// Room for the line, whose number has at most 20 digits.
const LINE_LEN: usize = 32;

type Line = ArrayVec<u8, LINE_LEN>;

/// Adds bytes to a line that has room for them.
fn add(line: &mut Line, bytes: &[u8])
    requires { length line.old.items + length bytes.now ≤ 32 }
    ensures { line.new.items ≡ line.old.items ++ bytes.now }
{
    if line.try_extend_from_slice(bytes).is_err() {
        unreachable!()
    }
}

/// The line that tells how many pieces were handled.
pub(crate) fn handled_line(pieces: u64) -> Line
    ensures { result.items ≡ handled_text pieces }
{
    let mut line = Line::new();
    let mut digits = Buffer::new();
    add(&mut line, b"handled ");
    add(&mut line, digits.format(pieces).as_bytes());
    add(&mut line, b"\n");
    line
}

/// Counts the pieces of a ring of so many workers on threads.
fn count<R: Threads + Wait + Sync>(rt: &R, alloc: Global, workers: u32) -> Settled
    requires { (1 ≤ workers) × (workers ≤ 64) }
    ensures counts { Counts workers result }
    ensures tellable { IsTellable result }
{
    match count_pieces(rt, alloc, workers) {
        Ok(pieces) => Settled::Counted(pieces),
        Err(_) => Settled::Memory,
    }
}

/// Counts the pieces of a ring of so many workers on threads, and writes how many were handled. It waits as long as the
/// threads take.
pub fn count_top<R: Threads + Wait + Sync, K: Sink>(
    rt: &R,
    alloc: Global,
    workers: u32,
    sink: &mut K,
) -> Ended
    requires { (1 ≤ workers) × (workers ≤ 64) }
    // Each status has its cause.
    ensures done { result.status ≡ 0 → IsHandled workers (K.taken sink.old) (K.taken sink.new) result.front }
    ensures write { result.status ≡ 4 → Rose (K.faults sink.old) (K.faults sink.new) }
    ensures others { (result.status ≡ 0) ⊎ ((result.status ≡ 4) ⊎ (result.status ≡ 5)) }

    // And at the status of a write fault the text is a prefix of that of another status.
    ensures settled { (settled : Settled) × Counts workers settled
        × IsTold settled (K.taken sink.old) (K.taken sink.new) (Rose (K.faults sink.old) (K.faults sink.new)) result }

    // Where the sink does not fail, the status is 0 or 5, and its text was written.
    ensures complete { ¬ Rose (K.faults sink.old) (K.faults sink.new)
        → EndsCount workers (K.taken sink.old) (K.taken sink.new) result }
{
    let settled = count(rt, alloc, workers);
    tell(alloc, sink, settled)
}
