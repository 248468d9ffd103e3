//! Workers on threads, and the poller beside them.

ghost use Rattle.std.specs.Prelude.{◌≡◌, ◌*◌, ◌<◌, ◌≤◌, ℕ, [], length, IfOk, All, Some, replicate, slice_index_or};
ghost use Rattle.std.specs.Thread.{IsSync};
ghost use Rattle.mako_count.specs.Running.{AreBetweenPieces, IsBetweenPieces, IsSameWorker, SendsInTurn};
ghost use Rattle.mako_count.specs.States.{WorkerState};
ghost use Rattle.mako_count.specs.Meetings.{MeetingTells};
ghost use Rattle.mako_count.specs.Tables.{table_of, crew_of};
ghost use Rattle.mako_count.specs.declared.views.Hand.TheVariants.{Free, Holding};

use crate::count::{Count, Counted};
use crate::poller::{CountPoller, Counting};
use crate::worker::{Sent, Taken, Worker};
use crossbeam_utils::Backoff;
use mako_words::Memory;
use std::alloc::Global;
use std::sync::Wait;
use std::sync::atomic::{AtomicBool, Ordering};
use std::thread;
use std::thread::Threads;

/// The pieces with which each worker starts, and how often it may send.
const EACH: u32 = 8;

/// Sends a piece for the one that the worker holds, if it may, and rests.
fn handle(count: &Count, worker: &mut Worker, to: u32)
    requires table { worker.old.table ≡ table_of count.now }
    requires to { to < crew_of count.now }
    requires holds { worker.old.known.hand ≡ Holding }
    requires turn { SendsInTurn worker.old.most worker.old.known }
    ensures same { IsSameWorker worker.old worker.new }
    ensures between { IsBetweenPieces worker.new }
{
    let _: Sent = worker.send(count, to);
    worker.rest(count);
}

/// Takes pieces and handles them, until the box is found empty and the flag up.
fn work<R: Wait>(rt: &R, count: &Count, worker: &mut Worker, to: u32, over: &AtomicBool)
    requires table { worker.old.table ≡ table_of count.now }
    requires to { to < crew_of count.now }
    requires between { IsBetweenPieces worker.old }
    ensures same { IsSameWorker worker.old worker.new }
    ensures between { IsBetweenPieces worker.new }
{
    let backoff = Backoff::new();
    'pieces: for _ in rt.forever() {
        match worker.take(count) {
            Taken::Got => {
                handle(count, worker, to);
                backoff.reset();
            }
            Taken::Empty if over.load(Ordering::SeqCst) => break,
            Taken::Empty => backoff.snooze(),
        }
    }
}

/// The worker after this one, in a ring of so many.
fn after(number: usize, workers: usize) -> u32
    requires { (number < workers) × (workers ≤ 64) }
    ensures { result < workers }
{
    ((number + 1) % workers) as u32
}

/// All workers work, each on a thread of its own where one can be made.
fn work_all<R: Threads + Wait + Sync>(
    rt: &R,
    count: &Count,
    mut workers: Vec<Worker>,
    most: u32,
    over: &AtomicBool,
) -> Vec<Worker>
    requires crew { length workers.items ≡ crew_of count.now }
    requires between { AreBetweenPieces (table_of count.now) most most workers.items }
    ensures crew { length result.items ≡ crew_of count.now }
    ensures between { AreBetweenPieces (table_of count.now) most most result.items }
{
    let crew = workers.len();
    thread::for_each_mut(
        rt,
        workers.as_mut_slice(),
        crew,
        &|number, worker: &mut Worker|
            requires { (number < crew) × (crew ≡ crew_of count.now) × (crew ≤ 64)
                × (worker.now.table ≡ table_of count.now) × IsBetweenPieces worker.now }
            ensures { IsSameWorker worker.entry.now worker.exit.now × IsBetweenPieces worker.exit.now }
        { work(rt, count, worker, after(number, crew), over) },
    );
    workers
}

/// What the poller was told, and the poller.
#[derive(Drop)]
struct Answered {
    poller: CountPoller,
    pieces: u64,
}

/// Polls until no piece is left, and raises the flag.
fn poll_to_end<R: Wait>(
    rt: &R,
    count: &Count,
    mut poller: CountPoller,
    over: &AtomicBool,
) -> Answered
    requires table { poller.table ≡ table_of count.now }
    ensures same { (result.poller.table ≡ poller.table) × (result.poller.met ≡ poller.met) }
    ensures told { result.poller.poll.told ≡ Some result.pieces }
{
    let backoff = Backoff::new();
    'polls: for _ in rt.forever() {
        if let Counting::Told { pieces } = poller.poll(count) {
            over.store(true, Ordering::SeqCst);
            return Answered { poller, pieces };
        }
        backoff.snooze();
    }
    unreachable!()
}

/// The poller meets all workers. By then each has handled its seeds, and so has sent as often as it might.
fn meet_all(count: &Count, answered: Answered, mut workers: Vec<Worker>, most: u32) -> u64
    requires table { answered.poller.table ≡ table_of count.now }
    requires told { answered.poller.poll.told ≡ Some answered.pieces }
    requires unmet { answered.poller.met ≡ [] }
    requires crew { length workers.items ≡ crew_of count.now }
    requires between { AreBetweenPieces (table_of count.now) most most workers.items }
    ensures { result ≡ 2 * most * crew_of count.now }
{
    let Answered { mut poller, pieces } = answered;
    while let Some(worker) = workers.pop() {
        poller.meet(count, worker);
    }
    pieces
}

/// Workers and poller run on threads until all pieces are handled. It answers how many there were.
fn count_all<R: Threads + Wait + Sync>(
    rt: &R,
    count: &Count,
    poller: CountPoller,
    workers: Vec<Worker>,
    most: u32,
) -> u64
    requires poller { (poller.table ≡ table_of count.now) × (poller.met ≡ []) }
    requires crew { length workers.items ≡ crew_of count.now }
    requires between { AreBetweenPieces (table_of count.now) most most workers.items }
    ensures { result ≡ 2 * most * crew_of count.now }
{
    let over = AtomicBool::new(false);
    let over = &over;
    let (answered, workers) = thread::join(
        rt,
        || -> Answered
            requires { (poller.table ≡ table_of count.now) × (poller.met ≡ []) }
            ensures { (result.poller.table ≡ table_of count.entry.now) × (result.poller.met ≡ [])
                × (result.poller.poll.told ≡ Some result.pieces) }
        { poll_to_end(rt, count, poller, over) },
        || -> Vec<Worker>
            requires { IsSync R.row × (length workers.items ≡ crew_of count.now)
                × AreBetweenPieces (table_of count.now) most most workers.items }
            ensures { (length result.items ≡ crew_of count.entry.now)
                × AreBetweenPieces (table_of count.entry.now) most most result.items }
        { work_all(rt, count, workers, most, over) },
    );
    meet_all(count, answered, workers, most)
}

/// Counts the pieces of a ring of so many workers on threads, each of which starts with 8 pieces and sends one piece on
/// for each of the first 8 that it handles. There are 1 to 64 workers. It waits until all pieces are handled, as
/// long as that takes, and answers how many they were. `Memory` comes only before the first thread starts.
pub fn count_pieces<R: Threads + Wait + Sync>(
    rt: &R,
    alloc: Global,
    workers: u32,
) -> Result<u64, Memory>
    requires { (0 < workers) × (workers ≤ 64) }
    ensures { IfOk result (λ pieces. pieces ≡ 16 * workers) }
{
    let Ok(seeds) = Vec::from_elem(alloc, EACH, workers as usize) else {
        return Err(Memory);
    };
    let Counted {
        count,
        workers,
        poller,
    } = Count::start(alloc, seeds.as_slice(), EACH)?;
    Ok(count_all(rt, &count, poller, workers, EACH))
}
