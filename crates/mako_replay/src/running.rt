//! A core that makes the steps of a schedule.

ghost use Rattle.std.specs.Prelude.{◌≡◌, ◌≢◌, ◌+◌, ◌<◌, ◌↔◌, [], length, slice_index, IfOk, IsTrue};
ghost use Rattle.mako_core.specs.Endings.{AllAtEnd};
ghost use Rattle.mako_replay.specs.Runs.{Going, advanced, at_start, is_end, live};
ghost use Rattle.mako_replay.specs.Standing.{HasCome, IsDrawn, IsReady, next_place};

use crate::order::Order;
use crate::schedule::Schedule;
use mako_core::Core;
use mako_mutator::Place;
use mako_script::Script;
use mako_step::FlatWords;
use mako_words::Memory;
use std::alloc::Global;

fn is_end(place: Place) -> bool
    ensures { result ≡ is_end place }
{
    matches!(place, Place::Ended)
}

/// The seats that are not at their end, in order.
fn live_seats(alloc: Global, core: &Core<FlatWords>) -> Result<Vec<u32>, Memory>
    ensures { IfOk result (λ seats. seats.items ≡ live core.now.state.seats) }
{
    let mut seats = Vec::new(alloc);
    for seat in 0..core.seats() {
        if !is_end(core.place(seat)) {
            let Ok(_) = seats.push(seat) else {
                return Err(Memory);
            };
        }
    }
    Ok(seats)
}

/// The seat that steps next, of those that are not at their end, or 0 where none is left.
fn next_seat(schedule: &Schedule, live: &[u32]) -> u32
    requires { IsDrawn schedule.now (length live.now) }
    ensures { 0 < length live.now → result ≡ slice_index live.now (next_place schedule.now (length live.now)) }
{
    if live.is_empty() {
        return 0;
    }
    live[schedule.next(live.len())]
}

/// A core with what is left of its schedule.
#[derive(Drop)]
pub(crate) struct Running {
    pub(crate) core: Core<FlatWords>,
    /// The seats that are not at their end, in order.
    pub(crate) live: Vec<u32>,
    schedule: Schedule,
    /// The seat that steps next, where one is left. It is looked up a step ahead, as its place is drawn.
    seat: u32,
    pub(crate) steps_made: u64,
}

impl Running {
    /// Before the first step.
    pub(crate) fn start(alloc: Global, script: &Script, order: Order) -> Result<Running, Memory>
        ensures script { IfOk result (λ r. r.core.script ≡ script.now) }
        ensures live { IfOk result (λ r. r.live.items ≡ live r.core.state.seats) }
        ensures come { IfOk result (λ r. HasCome r (at_start script.now order)) }
        ensures ready { IfOk result IsReady }
    {
        let core: Core<FlatWords> = Core::start(alloc, script)?;
        let live = live_seats(alloc, &core)?;
        let schedule = Schedule::new(order, live.len());
        let seat = next_seat(&schedule, live.as_slice());
        Ok(Running {
            core,
            live,
            schedule,
            seat,
            steps_made: 0,
        })
    }

    /// Makes the next step of the schedule.
    #[inline(always)]
    pub(crate) fn step(&mut self)
        requires live { self.old.live.items ≡ live self.old.core.state.seats }
        requires one { self.old.live.items ≢ [] }
        requires few { self.old.steps_made < 1000000000 }
        requires ready { IsReady self.old }
        ensures script { self.new.core.script ≡ self.old.core.script }
        ensures live { self.new.live.items ≡ live self.new.core.state.seats }
        ensures made { self.new.steps_made ≡ self.old.steps_made + 1 }
        ensures come { (g : Going) → HasCome self.old g → HasCome self.new (advanced g) }
        ensures ready { IsReady self.new }
    {
        let seat = self.seat;
        let count = self.live.len();
        let place = self.schedule.choose(count);
        self.seat = self.live[self.schedule.next(count)];
        let _turn = self.core.step(seat);
        self.steps_made += 1;
        if is_end(self.core.place(seat)) {
            let _seat = self.live.remove(place);
            self.schedule.leave(place, self.live.len());
            self.seat = next_seat(&self.schedule, self.live.as_slice());
        }
    }

    /// Whether every mutator is at its end.
    pub(crate) fn is_finished(&self) -> bool
        requires { self.now.live.items ≡ live self.now.core.state.seats }
        ensures { IsTrue result ↔ AllAtEnd self.now.core.script.numbers self.now.core.state.seats }
    {
        let mutators = self.core.shape().numbers().mutators;
        match self.live.first() {
            None => true,
            Some(seat) => *seat >= mutators,
        }
    }
}
