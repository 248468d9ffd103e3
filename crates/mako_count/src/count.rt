//! The words of a count, and its start.

ghost use Rattle.std.specs.Prelude.{◌≡◌, ◌*◌, ◌<◌, ◌≤◌, length};

use crate::opening::{opening_words, setup_of};
use crate::poller::CountPoller;
use crate::rule::{CountingRule, Place};
use crate::setup::Setup;
use crate::views::View;
use crate::worker::Worker;
use atomic_table::Table;
use mako_words::Memory;
use std::alloc::{AllocError, Global};

/// The words of a count under its rule: for each worker the pieces that it sent, for each those that it handled, and
/// for each its box, which counts the pieces that wait for it.
#[derive(Drop)]
pub struct Count {
    pub(crate) table: Table<(), View, Setup, CountingRule, Global>,
    pub(crate) workers: usize,
    ghost crew: { length table.shared.key.seeds.items ≡ workers },
    ghost layout: { table.shared.table_id.words ≡ 3 * workers },
    ghost some: { 0 < workers },
    ghost few: { workers ≤ 64 },
}

/// A count at its start: its workers in the order of their numbers, and its poller.
#[derive(Drop)]
pub struct Counted {
    pub count: Count,
    pub workers: Vec<Worker>,
    pub poller: CountPoller,
}

impl Count {
    ghost use Rattle.std.specs.Prelude.{IfOk, OnOk, []};
    ghost use Rattle.mako_count.specs.Views.{gathering, openings, opening_poll};
    ghost use Rattle.mako_count.specs.Tables.{table_of, crew_of};
    ghost use Rattle.mako_count.specs.States.{AreStarting, IsStartingPoller};

    /// Each worker gets its seat.
    fn deal_all(
        &self,
        alloc: Global,
        desk: &mut Place,
        seeds: &[u32],
        sends: u32,
    ) -> Result<Vec<Worker>, AllocError>
        requires table { desk.old.table_id ≡ table_of self.now }
        requires crew { length seeds.now ≡ crew_of self.now }
        requires undealt { desk.old.me ≡ (gathering (openings 0 seeds.now) (opening_poll (length seeds.now)), []) }
        ensures workers { IfOk result (λ ws. AreStarting (table_of self.now) seeds.now sends ws.items) }
        ensures desk { OnOk result (desk.new.me ≡ (gathering [] (opening_poll (length seeds.now)), [])) }
        ensures table { desk.new.table_id ≡ desk.old.table_id }
    {
        let mut workers = Vec::with_capacity(alloc, seeds.len())?;
        for number in 0..seeds.len() {
            let seat = self.deal(desk);
            workers.push(Worker::at(seat, number, sends))?;
        }
        Ok(workers)
    }

    /// Starts the count of a worker for each of the seeds, which are the pieces that wait for it at first. There are 1
    /// to 64 workers, and each may send `sends` times. It takes all memory that the count ever takes; `Memory` means
    /// that there was not enough.
    pub fn start(alloc: Global, seeds: &[u32], sends: u32) -> Result<Counted, Memory>
        requires { (0 < length seeds.now) × (length seeds.now ≤ 64) }
        ensures crew { IfOk result (λ r. crew_of r.count ≡ length seeds.now) }
        ensures workers { IfOk result (λ r. AreStarting (table_of r.count) seeds.now sends r.workers.items) }
        ensures poller { IfOk result (λ r. IsStartingPoller (table_of r.count) (length seeds.now) r.poller) }
    {
        let Ok(words) = opening_words(alloc, seeds) else {
            return Err(Memory);
        };
        let Ok(setup) = setup_of(alloc, seeds) else {
            return Err(Memory);
        };
        let Ok((table, mut desk)) = Table::of_words(alloc, words.as_slice(), &setup) else {
            return Err(Memory);
        };
        let count = Count {
            table,
            workers: seeds.len(),
        };
        let Ok(workers) = count.deal_all(alloc, &mut desk, seeds, sends) else {
            return Err(Memory);
        };
        let poller = CountPoller::at(desk);
        Ok(Counted {
            count,
            workers,
            poller,
        })
    }
}
