//! What the collector keeps from step to step.

ghost use Rattle.std.specs.Prelude.{◌≡◌, ◌<◌, ◌≤◌, ◌+◌, ◌*◌, ◌%◌, ◌^◌, ◌++◌, ◌∷◌, [], false, IfOk, IfSome, length};
ghost use Rattle.std.specs.Prelude.{position, replicate, sum_by};
ghost use Rattle.mako_words.specs.Values.{FitsValue};
ghost use Rattle.mako_shape.specs.Limits.{IsShape};
ghost use Rattle.mako_shape.specs.Places.{index, total, work};
ghost use Rattle.mako_step.specs.Acts.{does, IsWithin};
ghost use Rattle.mako_step.specs.declared.act.Op.TheVariants.{Load};
ghost use Rattle.mako_step.specs.Machines.{IsAct};
ghost use Rattle.mako_ring.specs.Tracing.{owner, no_window, is_open, IsNamed, FieldFits};
ghost use Rattle.mako_poll.specs.Polls as polls;
ghost use Rattle.mako_pause.specs.Collecting as collecting;
ghost use Rattle.mako_pause.specs.Collecting.{at, window_of, running};
ghost use Rattle.mako_pause.specs.Keeping.{Runs, IsKeptKnown, EmptyIsKnown};
ghost use Rattle.mako_pause.specs.Opening.{new_holdings};

mod choices;
mod fitting;
mod rings;

use crate::regions::{Role, opening_roles};
use crate::stage::{BarrierStage, ChoiceStage, CollectStage, ForwardStage, Pause, PauseStage};
use mako_choice::{Chooser, Used};
use mako_model::Cycles;
use mako_poll::{Polled, Poller};
use mako_ring::Window;
use mako_shape::{Numbers, Shape};
use mako_step::{Machine, Step};
use mako_words::{Memory, Name, Value};
use std::alloc::Global;
use std::collections::VecDeque;
use std::marker::Model;

/// What the collector keeps from step to step.
#[derive(Drop)]
pub struct Kept {
    shape: Shape,
    cycle: u32,
    gates_shut: bool,
    pending: VecDeque<Name>,
    windows: Vec<Window>,
    barrier_at: Vec<u64>,
    notice_at: Vec<u64>,
    poll: Poller,
    chooser: Chooser,
    used: Vec<Used>,
    chosen: Vec<u32>,
    roles: Vec<Role>,
    freed: Vec<Name>,
    cycles: Cycles,
}

impl Model for Kept {
    ghost use Rattle.mako_pause.specs.Collecting.{Holdings};
    ghost use Rattle.mako_pause.specs.Keeping.{kept_in, KeptHolds};

    ghost Value = { Holdings };

    ghost view = { kept_in };

    ghost invariant = { KeptHolds };
}

impl Kept {
    /// Nothing of anything, with room for this many freed names. It takes all memory that it ever takes.
    pub(crate) fn new(alloc: Global, shape: Shape, names: usize) -> Result<Kept, Memory>
        ensures { IfOk result (λ k. k ≡ new_holdings shape names) }
    {
        let numbers = shape.numbers();
        let servers = numbers.servers as usize;
        let Ok(pending) = VecDeque::with_capacity(
            alloc,
            (numbers.mutators * numbers.roots) as usize,
        ) else {
            return Err(Memory);
        };
        let windows = no_windows(alloc, servers)?;
        let barrier_at = first_places(alloc, numbers.mutators as usize)?;
        let notice_at = first_places(alloc, servers)?;
        let chooser = Chooser::new(alloc, numbers.tablets)?;
        let Ok(used) = Vec::with_capacity(alloc, numbers.tablets as usize) else {
            return Err(Memory);
        };
        let Ok(chosen) = Vec::with_capacity(alloc, (numbers.servers * numbers.spare) as usize)
        else {
            return Err(Memory);
        };
        let roles = opening_roles(alloc, &shape)?;
        let Ok(freed) = Vec::with_capacity(alloc, names) else {
            return Err(Memory);
        };
        let cycles = Cycles::with_room(alloc, names, numbers.cycles as usize)?;
        Ok(Kept {
            shape,
            cycle: 0,
            gates_shut: false,
            pending,
            windows,
            barrier_at,
            notice_at,
            poll: Poller::new(shape),
            chooser,
            used,
            chosen,
            roles,
            freed,
            cycles,
        })
    }

    /// The geometry.
    pub(crate) fn shape(&self) -> Shape
        ensures { result ≡ self.now.shape }
    {
        self.shape
    }

    pub(crate) fn numbers(&self) -> Numbers
        ensures numbers { result ≡ self.now.shape }
        ensures shape { IsShape self.now.shape }
        ensures known { IsKeptKnown self.now }
    {
        self.shape.numbers()
    }

    /// The last finished cycle.
    pub(crate) fn cycle(&self) -> u32
        ensures cycle { result ≡ self.now.cycle }
        ensures below { result ≤ self.now.shape.cycles }
    {
        self.cycle
    }

    /// The cycle that runs.
    pub(crate) fn running(&self) -> u32
        requires { Runs self.now }
        ensures cycle { result ≡ running self.now }
        ensures below { result < 2 ^ 20 }
    {
        let _numbers = self.shape.numbers();
        self.cycle + 1
    }

    /// The server of a name.
    pub(crate) fn owner(&self, name: Name) -> u32
        requires { IsNamed self.now.shape name }
        ensures owner { result ≡ owner self.now.shape name }
        ensures below { result < self.now.shape.servers }
    {
        let numbers = self.shape.numbers();
        name.entry / numbers.entries / numbers.tablets
    }

    /// Part 2 goes on with the first of the pending names, and without one the barrier rings are next.
    pub(crate) fn forward(&mut self) -> CollectStage
        ensures { at self.new result ≡ collecting.forward self.old }
    {
        match self.pending.pop_front() {
            Some(name) => CollectStage::Forwarding(ForwardStage::Looking(name)),
            None => CollectStage::Barriers(BarrierStage::Loading(0)),
        }
    }

    /// Keeps the name of a root that holds one.
    pub(crate) fn keep_root(&mut self, value: Value)
        requires packed { FitsValue value }
        requires fits { FieldFits self.old.shape value }
        requires room { length self.old.pending < self.old.shape.mutators * self.old.shape.roots }
        ensures { self.new ≡ record self.old { pending = self.old.pending ++ collecting.names_of value } }
    {
        if let Value::Ref(name) = value {
            if self.pending.push_back(name).is_err() {
                unreachable!()
            }
        }
    }
}

/// Where its parts begin and end.
impl Kept {
    /// Part 4 goes on with the first window that has a slot which was not seen emptied, and without one
    /// the poll is next.
    pub(crate) fn empty(&mut self) -> CollectStage
        ensures { at self.new result ≡ collecting.empty self.old }
    {
        match first_open(&self.windows) {
            Some(server) => CollectStage::Emptying(server as u32),
            None => {
                self.poll = Poller::new(self.shape);
                CollectStage::Polling
            }
        }
    }

    /// The look of part 3 behind this mutator's, and past the last mutator part 4.
    pub(crate) fn barriers_after(&mut self, mutator: u32) -> CollectStage
        requires { mutator < self.old.shape.mutators }
        ensures { at self.new result ≡ collecting.barriers_from self.old (mutator + 1) }
    {
        let mutators = self.numbers().mutators;
        if mutator + 1 == mutators {
            self.empty()
        } else {
            CollectStage::Barriers(BarrierStage::Loading(mutator + 1))
        }
    }

    /// The look at the slot at the tail of a server's work ring.
    pub(crate) fn empty_next(&self, server: u32) -> Step
        requires { server < self.now.shape.servers }
        ensures next { result ≡ does
            (index self.now.shape (work server ((window_of self.now server).tail % self.now.shape.ring))) Load }
        ensures within { IsWithin (total self.now.shape) result }
    {
        let place = self.window(server).tail % u64::from(self.numbers().ring);
        Step::load(self.shape.work(server, place as u32))
    }

    /// Part 4 goes on with the word found in that slot.
    pub(crate) fn empty_fed(&mut self, server: u32, before: u64) -> CollectStage
        requires { EmptyIsKnown self.old server }
        ensures { at self.new result ≡ collecting.empty_fed self.old server before }
    {
        if before != 0 {
            return CollectStage::Emptying(server);
        }
        self.tail_up(server);
        self.empty()
    }

    /// The next act of the poll.
    pub(crate) fn poll_next(&self) -> Step
        ensures next { result ≡ polls.next_of self.now.poll }
        ensures within { IsWithin (total self.now.shape) result }
    {
        self.poll.next()
    }

    /// The poll goes on with the word found.
    pub(crate) fn poll_fed(&mut self, before: u64) -> CollectStage
        requires acts { IsAct (polls.next_of self.old.poll) }
        requires fits { polls.Fits self.old.poll before }
        ensures { at self.new result ≡ collecting.poll_fed self.old before }
    {
        self.poll.feed(before);
        if let Step::Do(_) = self.poll.next() {
            return CollectStage::Polling;
        }
        match self.poll.result() {
            Polled::Told => self.told(),
            Polled::NotYet { .. } => CollectStage::Barriers(BarrierStage::Loading(0)),
        }
    }

    /// Completion is told: with the gates open the second pause is next, with the gates shut the choice.
    fn told(&mut self) -> CollectStage
        ensures { at self.new result ≡ collecting.told self.old }
    {
        if self.gates_shut {
            self.used.clear();
            self.chosen.clear();
            CollectStage::Choosing(ChoiceStage::LoadingLive {
                server: 0,
                place: 0,
            })
        } else {
            CollectStage::Pausing(PauseStage::Shutting(Pause::Choice, 0))
        }
    }

    /// The last gate is drained: the roots are next, and in the second pause the barrier rings.
    pub(crate) fn paused(&mut self, pause: Pause) -> CollectStage
        ensures { at self.new result ≡ collecting.paused self.old pause }
    {
        match pause {
            Pause::Snapshot => {
                CollectStage::Pausing(PauseStage::LoadingRoot {
                    mutator: 0,
                    root: 0,
                })
            }
            Pause::Choice => {
                self.gates_shut = true;
                CollectStage::Barriers(BarrierStage::Loading(0))
            }
        }
    }

    /// The phase Evac is stored: the gates are opened.
    pub(crate) fn evacuating(&mut self)
        ensures { self.new ≡ record self.old { gates_shut = false } }
    {
        self.gates_shut = false;
    }

    /// A freed name.
    pub(crate) fn keep_freed(&mut self, name: Name)
        requires { sum_by length self.old.cycles.lists + length self.old.freed < self.old.cycles.names_room }
        ensures { self.new ≡ record self.old { freed = self.old.freed ++ name ∷ [] } }
    {
        self.freed.push_reserved(name);
    }

    /// The running cycle is finished.
    pub(crate) fn finish(&mut self)
        requires { Runs self.old }
        ensures { self.new ≡ collecting.finish self.old }
    {
        self.cycles.push(&self.freed);
        self.freed.clear();
        self.cycle += 1;
    }

    /// The finished cycles.
    pub(crate) fn cycles(&self) -> &Cycles
        ensures { result.now ≡ self.now.cycles }
    {
        &self.cycles
    }

    /// The same list.
    pub(crate) fn into_cycles(self) -> Cycles
        ensures { result ≡ self.cycles }
    {
        self.cycles
    }
}

/// So many windows of rings into which nothing was put.
fn no_windows(alloc: Global, count: usize) -> Result<Vec<Window>, Memory>
    ensures { IfOk result (λ windows. windows.items ≡ replicate count no_window) }
{
    let Ok(windows) = vec![in alloc; Window { head: 0, tail: 0 }; count] else {
        return Err(Memory);
    };
    Ok(windows)
}

/// So many positions at the first slot.
fn first_places(alloc: Global, count: usize) -> Result<Vec<u64>, Memory>
    ensures { IfOk result (λ places. places.items ≡ replicate count 0) }
{
    let Ok(places) = vec![in alloc; 0u64; count] else {
        return Err(Memory);
    };
    Ok(places)
}

/// The first window with a slot that was not seen emptied.
fn first_open(windows: &[Window]) -> Option<usize>
    ensures place { result ≡ position is_open windows.now }
    ensures below { IfSome result (λ place. place < length windows.now) }
{
    windows.iter().position(|window| window.tail < window.head)
}
