//! The core of a run.

ghost use Rattle.std.specs.Prelude.{◌≡◌, ◌<◌, ◌≤◌, ◌++◌, ◌∷◌, [], length, slice_get, slice_index, Some, IfOk};
ghost use Rattle.mako_mutator.specs.Telling.{history_after};

use crate::opening_seats::{count_points, opening_seats};
use crate::opening_words::opening_words;
use crate::replies::{take_collector, with_replies};
use crate::turn::Turn;
use mako_model::{Cycles, Front, Journal, Outcome, Reply};
use mako_mutator::Place;
use mako_script::Script;
use mako_seat::Seat;
use mako_shape::Shape;
use mako_step::Words;
use mako_words::Memory;
use std::alloc::Global;
use std::marker::Model;
use std::snapshot::Snapshot;

/// The words of a heap, the machine of each seat, and the journal. The seats are the mutators, then the servers, then
/// the collector.
#[derive(Drop)]
pub struct Core<W: Words> {
    script: Snapshot<Script>,
    shape: Shape,
    words: W,
    seats: Vec<Seat>,
    journal: Journal,
    /// The mutators' lists of replies, empty until the end.
    lists: Vec<Vec<Reply>>,
}

impl<W: Words> Model for Core<W> {
    ghost use Rattle.std.specs.Prelude.{vec_capacity};
    ghost use Rattle.mako_core.specs.Cores.{CoreView, core_view, CoreHolds};

    ghost Value = { CoreView };

    ghost view = { λ c. core_view c.script.value (W.words c.words) c.seats.items c.journal.points };

    ghost invariant = { λ c. CoreHolds c.shape
        (core_view c.script.value (W.words c.words) c.seats.items c.journal.points)
        c.journal.room c.lists.items (vec_capacity c.lists) };
}

impl<W: Words> Core<W> {
    ghost use Rattle.mako_script.specs.ScriptFacts.{facts_of};
    ghost use Rattle.mako_seat.specs.Seats.{place_of};
    ghost use Rattle.mako_seat.specs.declared.seat.Seat.{Seat};
    ghost use Rattle.mako_state.specs.CoreStates.{step_of};
    ghost use Rattle.mako_whole.specs.AllStanding.{SeatsStand};
    ghost use Rattle.mako_core.specs.Cores.{CoreView};
    ghost use Rattle.mako_core.specs.Turns.{turn_at, told_at};
    ghost use Rattle.mako_shape.specs.Places.{total};
    ghost use Rattle.mako_state.specs.Openings.{opening_core};

    /// The core of a script before the first step. It takes all memory that it ever takes.
    pub fn start(alloc: Global, script: &Script) -> Result<Core<W>, Memory>
        ensures script { IfOk result (λ c. c.script ≡ script.now) }
        ensures opening { IfOk result (λ c. c.state ≡ opening_core script.now) }
        ensures holds { IfOk result (λ c. SeatsStand c.script.numbers (facts_of c.script) c.state) }
    {
        let programs = script.programs.as_slice();
        let seats = opening_seats(alloc, script)?;
        let points = count_points(programs, script.shape.numbers().cycles);
        let journal = Journal::with_room(alloc, points)?;
        let Ok(lists) = Vec::with_capacity(alloc, programs.len()) else {
            return Err(Memory);
        };
        let words = opening_words(alloc, script)?;
        Ok(Core {
            script: Snapshot::of(script),
            shape: script.shape,
            words,
            seats,
            journal,
            lists,
        })
    }

    /// The number of seats.
    pub fn seats(&self) -> u32
        ensures { result ≡ length self.now.state.seats }
    {
        let numbers = self.shape.numbers();
        numbers.mutators + numbers.servers + 1
    }

    /// The geometry of the script.
    pub fn shape(&self) -> Shape
        ensures { result ≡ self.now.script.numbers }
    {
        self.shape
    }

    /// How far the seat has come.
    pub fn place(&self, seat: u32) -> Place
        requires { seat < length self.now.state.seats }
        ensures { (v : Seat) → slice_get self.now.state.seats seat ≡ Some v → result ≡ place_of v }
    {
        self.seats[seat as usize].place()
    }

    /// The word with this index.
    pub fn word(&self, index: u32) -> u64
        requires { index < total self.now.script.numbers }
        ensures { result ≡ slice_index self.now.state.words index }
    {
        self.words.word(index)
    }

    /// The history so far.
    pub fn journal(&self) -> &Journal
        ensures { result.now.points ≡ self.now.state.front.history }
    {
        &self.journal
    }

    /// The finished cycles, each with the names that it freed.
    pub fn cycles(&self) -> &Cycles
        ensures { result.now.lists ≡ self.now.state.front.finished }
    {
        let last = self.seats.len() - 1;
        match &self.seats[last] {
            Seat::Collector(collector) => collector.cycles(),
            _ => unreachable!(),
        }
    }

    /// Makes one atomic step of the seat.
    #[inline(always)]
    pub fn step(&mut self, seat: u32) -> Turn
        requires { seat < length self.old.state.seats }
        ensures script { self.new.script ≡ self.old.script }
        ensures state { self.new.state ≡ step_of self.old.state seat }
        ensures seats { length self.new.state.seats ≡ length self.old.state.seats }
        ensures turn { result ≡ turn_at self.old.state (slice_get self.old.state.seats seat) }
        ensures history { let told = told_at self.old.state (slice_get self.old.state.seats seat) in
            self.new.state.front.history ≡ history_after self.old.state.front.history told }
        ensures holds { SeatsStand self.new.script.numbers (facts_of self.new.script) self.new.state }
    {
        let stepped = self.seats[seat as usize].step(&mut self.words, &mut self.journal);
        Turn::of(stepped)
    }
}

impl<W: Words + Drop> Core<W> {
    ghost use Rattle.mako_model.specs.declared.outcome.Outcome.{Outcome};
    ghost use Rattle.mako_model.specs.Answering.{Answers, AnswersToEnd};
    ghost use Rattle.mako_model.specs.Outcomes.{IsWhole, AreCyclesOfFront, reply_lists};
    ghost use Rattle.mako_script.specs.ScriptFacts.{facts_of};
    ghost use Rattle.mako_whole.specs.AllStanding.{SeatsStand};
    ghost use Rattle.mako_core.specs.Cores.{CoreView};
    ghost use Rattle.mako_core.specs.Endings.{AllAtEnd};

    /// What the run came to so far: the replies, the finished cycles, and the front. No memory is taken.
    pub fn finish(self) -> Outcome
        ensures whole { IsWhole result }
        ensures freed { AreCyclesOfFront result }
        ensures lists { length (reply_lists result) ≡ length self.script.programs }
        ensures front { result.front ≡ self.state.front }
        ensures answers { Answers (facts_of self.script) result.front }
        ensures end { AllAtEnd self.script.numbers self.state.seats → AnswersToEnd (facts_of self.script) result.front }
        ensures holds { SeatsStand self.script.numbers (facts_of self.script) self.state }
    {
        let Core {
            script: _,
            shape: _,
            words: _,
            mut seats,
            journal,
            lists,
        } = self;
        let collector = take_collector(&mut seats);
        let front = Front::of(&journal, collector.cycles());
        Outcome {
            replies: with_replies(lists, seats),
            cycles: collector.into_cycles(),
            front,
        }
    }
}
