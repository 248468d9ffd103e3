//! A mutator's whole program, as a machine.

ghost use Rattle.std.specs.Prelude.{◌≡◌, ◌<◌, ◌≤◌, ◌+◌, ◌++◌, ℕ, false, IfOk, length, slice_get, Some, vec_len};
ghost use Rattle.std.specs.Prelude.{vec_capacity, ◌↔◌, true, IsTrue};
ghost use Rattle.mako_shape.specs.Places.{total};
ghost use Rattle.mako_step.specs.Acts.{finds, words_stepped, IsWithin};
ghost use Rattle.mako_step.specs.Machines.{CanStep, machine_stepped};
ghost use Rattle.mako_step.specs.Stepping.{stepped};
ghost use Rattle.mako_mutator.specs.Telling.{history_after, told_by, untold};
ghost use Rattle.mako_mutator.specs.Drivers as drivers;

use crate::place::Place;
use crate::progress::{Progress, Task};
use crate::telling::keep_point;
use mako_call::{CallMachine, Caller};
use mako_model::{Call, Event, Journal, Point, Reply};
use mako_script::Script;
use mako_step::{Machine, Step, Stepped, Words};
use mako_words::Memory;
use std::alloc::Global;
use std::marker::Model;

/// Makes the calls of a mutator's program, one after the other. After a pause it attempts a call again.
/// After a `new` that found no room it waits for a cycle, and then attempts it a last time; it does so
/// at once where no cycle is left.
#[derive(Drop)]
pub struct Driver {
    caller: Caller,
    calls: Vec<Call>,
    replies: Vec<Reply>,
    progress: Progress,
}

impl Model for Driver {
    ghost use Rattle.mako_mutator.specs.Drivers.{Driving};
    ghost use Rattle.mako_mutator.specs.DriverHolds.{driving_in, DriverHolds};

    ghost Value = { Driving };

    ghost view = { driving_in };

    ghost invariant = { DriverHolds };
}

impl Driver {
    ghost use Rattle.mako_script.specs.Programs.{ProgramView};

    /// The driver of the mutator's program, before its first call. It takes all memory that it ever takes.
    pub fn new(alloc: Global, script: &Script, mutator: u32) -> Result<Driver, Memory>
        requires { mutator < length script.now.programs }
        ensures { (program : ProgramView) → slice_get script.now.programs mutator ≡ Some program →
            IfOk result (λ d. d ≡ drivers.opening (record {
              shape = script.now.numbers;
              mutator = mutator;
            }) program.calls) }
    {
        let program = &script.programs[mutator as usize];
        let Ok(calls) = Vec::from_slice(alloc, program.calls.as_slice()) else {
            return Err(Memory);
        };
        let Ok(replies) = Vec::with_capacity(alloc, calls.len()) else {
            return Err(Memory);
        };
        let shape = script.shape;
        let caller = Caller { shape, mutator };
        let progress = Progress::begun(&caller, calls.as_slice());
        Ok(Driver {
            caller,
            calls,
            replies,
            progress,
        })
    }

    /// Whether it can go on with this word. A word that is not read may be any.
    pub fn can_go_on(&self, before: u64) -> bool
        ensures { IsTrue result ↔ drivers.Fits self.now before }
    {
        match self.progress.task {
            Task::Attempting(machine) | Task::Awaiting(machine) => machine.can_go_on(before),
            Task::Finishing | Task::Ended => true,
        }
    }

    /// Makes its next step on the words, and what the step tells goes into the journal.
    #[inline(always)]
    pub fn step<W: Words>(&mut self, words: &mut W, journal: &mut Journal) -> Stepped<()>
        requires can { CanStep (drivers.next_of self.old) (W.words words.old) (drivers.Fits self.old) }
        requires room { let found = finds (drivers.next_of self.old) (W.words words.old) in
            let step = stepped (drivers.next_of self.old) false found (drivers.event_of self.old found) in
            length (history_after journal.old.points (told_by step)) ≤ journal.old.room }
        ensures words { W.words words.new ≡ words_stepped (drivers.next_of self.old) (W.words words.old) }
        ensures machine { let found = finds (drivers.next_of self.old) (W.words words.old) in
            self.new ≡ machine_stepped (drivers.next_of self.old) self.old (drivers.fed self.old found) }
        ensures points { let found = finds (drivers.next_of self.old) (W.words words.old) in
            let step = stepped (drivers.next_of self.old) false found (drivers.event_of self.old found) in
            journal.new.points ≡ history_after journal.old.points (told_by step) }
        ensures room { journal.new.room ≡ journal.old.room }
        ensures result { let found = finds (drivers.next_of self.old) (W.words words.old) in
            result ≡ untold (stepped (drivers.next_of self.old) false found (drivers.event_of self.old found)) }
    {
        if self.progress.steps_at_once() {
            self.step_at_once(words, journal);
            return Stepped::Moved(());
        }
        let Step::Do(act) = self.next() else {
            return Stepped::Ended;
        };
        let before = words.act(act);
        let event = self.feed(before);
        keep_point(journal, event);
        Stepped::Moved(())
    }

    /// Makes the step of an attempt at once.
    #[inline(always)]
    fn step_at_once<W: Words>(&mut self, words: &mut W, journal: &mut Journal)
        requires acts { drivers.AttemptActs self.old.progress.task }
        requires can { CanStep (drivers.next_of self.old) (W.words words.old) (drivers.Fits self.old) }
        requires room { let found = finds (drivers.next_of self.old) (W.words words.old) in
            length (history_after journal.old.points (drivers.event_of self.old found)) ≤ journal.old.room }
        ensures words { W.words words.new ≡ words_stepped (drivers.next_of self.old) (W.words words.old) }
        ensures fed { self.new ≡ drivers.fed self.old (finds (drivers.next_of self.old) (W.words words.old)) }
        ensures points { let found = finds (drivers.next_of self.old) (W.words words.old) in
            journal.new.points ≡ history_after journal.old.points (drivers.event_of self.old found) }
        ensures room { journal.new.room ≡ journal.old.room }
    {
        let Task::Attempting(attempt) = &mut self.progress.task else {
            unreachable!()
        };
        let step = attempt.step(words);
        keep_told(&mut self.replies, journal, attempt, step.decides);
        self.progress
            .go_on(&self.caller, self.calls.as_slice(), step.ends);
    }

    /// How far it has come.
    pub fn place(&self) -> Place
        ensures { result ≡ drivers.place_at self.now.progress }
    {
        self.progress.place()
    }

    /// The replies to the calls that are decided, in order.
    pub fn replies(&self) -> &[Reply]
        ensures { result.now ≡ self.now.replies }
    {
        self.replies.as_slice()
    }

    /// The same list. No memory is taken.
    pub fn into_replies(self) -> Vec<Reply>
        ensures { result.items ≡ self.replies }
    {
        let Driver {
            caller: _,
            calls: _,
            replies,
            progress: _,
        } = self;
        replies
    }
}

impl Machine for Driver {
    type Event = Event;

    ghost use Rattle.mako_mutator.specs.Drivers as drivers;

    ghost next_of = { drivers.next_of };

    ghost Fits = { drivers.Fits };

    ghost fed = { drivers.fed };

    ghost event_of = { drivers.event_of };

    ghost is_waiting = { λ _ _. false };

    ghost is_renewed = { drivers.is_renewed };

    ghost rank = { drivers.rank };

    fn next(&self) -> Step
        ensures next { result ≡ drivers.next_of self.now }
        ensures within { IsWithin (total self.now.caller.shape) result }
    {
        self.progress.next(&self.caller)
    }

    fn waits(&self, _before: u64) -> bool {
        false
    }

    fn feed(&mut self, before: u64) -> Event {
        let event = self
            .progress
            .advance(&self.caller, self.calls.as_slice(), before);
        keep_reply(&mut self.replies, event);
        event
    }
}

/// The reply of a call that is decided with this event goes behind those before it.
fn keep_reply(replies: &mut Vec<Reply>, event: Event)
    requires { vec_len replies.old + length (drivers.told_reply event) ≤ vec_capacity replies.old }
    ensures items { replies.new.items ≡ replies.old.items ++ drivers.told_reply event }
    ensures room { vec_capacity replies.new ≡ vec_capacity replies.old }
{
    if let Event::Answered(Point::Did { reply, .. }) = event {
        replies.push_reserved(reply);
    }
}

/// The reply and the point of a call are kept, where the attempt's last step decided it.
#[inline(always)]
fn keep_told(replies: &mut Vec<Reply>, journal: &mut Journal, attempt: &CallMachine, decides: bool)
    requires replies { vec_len replies.old + length (drivers.told_reply (drivers.told_if decides attempt.now)) ≤
        vec_capacity replies.old }
    requires journal { length (history_after journal.old.points (drivers.told_if decides attempt.now)) ≤
        journal.old.room }
    ensures items { replies.new.items ≡ replies.old.items ++ drivers.told_reply (drivers.told_if decides attempt.now) }
    ensures capacity { vec_capacity replies.new ≡ vec_capacity replies.old }
    ensures points { journal.new.points ≡ history_after journal.old.points (drivers.told_if decides attempt.now) }
    ensures room { journal.new.room ≡ journal.old.room }
{
    if decides {
        keep_decided(replies, journal, attempt);
    }
}

/// The reply and the point of the call that the attempt's last step decided are kept. Most steps decide none, and are
/// faster where this stands apart.
#[inline(never)]
fn keep_decided(replies: &mut Vec<Reply>, journal: &mut Journal, attempt: &CallMachine)
    requires replies { vec_len replies.old + length (drivers.told_reply (drivers.told_if true attempt.now)) ≤
        vec_capacity replies.old }
    requires journal { length (history_after journal.old.points (drivers.told_if true attempt.now)) ≤
        journal.old.room }
    ensures items { replies.new.items ≡ replies.old.items ++ drivers.told_reply (drivers.told_if true attempt.now) }
    ensures capacity { vec_capacity replies.new ≡ vec_capacity replies.old }
    ensures points { journal.new.points ≡ history_after journal.old.points (drivers.told_if true attempt.now) }
    ensures room { journal.new.room ≡ journal.old.room }
{
    let event = attempt.event();
    keep_reply(replies, event);
    keep_point(journal, event);
}
