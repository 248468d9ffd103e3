//! How far a driver has come.

ghost use Rattle.std.specs.Prelude.{◌≡◌, ◌<◌, ◌+◌, ◌^◌, is_some, length, slice_get, IsTrue};
ghost use Rattle.std.specs.Option.{ForSome};
ghost use Rattle.mako_shape.specs.Places.{total};
ghost use Rattle.mako_step.specs.Acts.{IsWithin};
ghost use Rattle.mako_step.specs.Machines.{IsAct};
ghost use Rattle.mako_call.specs.Agreeing.{AskedFits};
ghost use Rattle.mako_call.specs.Callers.{IsCaller, CallFits};
ghost use Rattle.mako_mutator.specs.Drivers as drivers;
ghost use Rattle.mako_mutator.specs.Drivers.{ProgressIsKnown, AreFitting};
ghost use Rattle.mako_call.specs.Keeping.{KeepFits};

use crate::place::Place;
use mako_call::{CallMachine, Caller, Keep};
use mako_model::{Attempt, Call, Event};
use mako_step::{Machine, Step};

/// What a driver is at.
#[derive(Clone, Copy)]
pub enum Task {
    /// An attempt of its next call.
    Attempting(CallMachine),
    /// A `new` found no room: it asks for a cycle as a `collect` does, without a point in the history,
    /// and waits for its end.
    Awaiting(CallMachine),
    /// All calls are answered. Next it adds 1 to the finished word.
    Finishing,
    Ended,
}

impl Task {
    /// An attempt of the call, or the end where there is none.
    fn attempt(caller: &Caller, call: Option<Call>, last: bool, keep: Keep) -> Task
        requires caller { IsCaller caller.now }
        requires call { ForSome call (CallFits caller.now.shape) }
        requires keep { KeepFits caller.now.shape keep }
        ensures { result ≡ drivers.task_for caller.now call last keep }
    {
        match call {
            Some(call) => Task::Attempting(CallMachine::new(
                caller.shape,
                caller.mutator,
                call,
                last,
                keep,
            )),
            None => Task::Finishing,
        }
    }

    /// It waits for a cycle as a `collect` does.
    fn awaiting(caller: &Caller, keep: Keep) -> Task
        requires caller { IsCaller caller.now }
        requires keep { KeepFits caller.now.shape keep }
        ensures { result ≡ drivers.awaiting caller.now keep }
    {
        Task::Awaiting(CallMachine::new(caller.shape, caller.mutator, Call::Collect, false, keep))
    }
}

/// How far a driver has come with its program.
#[derive(Clone, Copy)]
pub struct Progress {
    /// How many calls are through.
    pub done: u32,
    /// Whether a step of the next call was made.
    pub within: bool,
    pub task: Task,
}

impl Progress {
    ghost use Rattle.mako_call.specs.Calls as calling;
    ghost use Rattle.mako_call.specs.Calls.{Calling};
    ghost use Rattle.mako_mutator.specs.declared.progress.Task.TheVariants as tasks;

    /// Before the first call.
    pub(crate) fn begun(caller: &Caller, calls: &[Call]) -> Progress
        requires caller { IsCaller caller.now }
        requires calls { AreFitting caller.now.shape calls.now }
        ensures { result ≡ drivers.begun caller.now calls.now }
    {
        let keep = Keep {
            asked: None,
            barrier_at: 0,
        };
        Progress {
            done: 0,
            within: false,
            task: Task::attempt(caller, call_at(calls, 0), false, keep),
        }
    }

    pub(crate) fn next(&self, caller: &Caller) -> Step
        requires caller { IsCaller caller.now }
        requires same { drivers.IsOf caller.now self.now.task }
        ensures next { result ≡ drivers.task_next caller.now self.now.task }
        ensures within { IsWithin (total caller.now.shape) result }
    {
        match &self.task {
            Task::Attempting(machine) | Task::Awaiting(machine) => machine.next(),
            Task::Finishing => Step::add(caller.shape.finished(), 1),
            Task::Ended => Step::Ended,
        }
    }

    /// Goes where the step leads that found this word, and answers what the step tells.
    pub(crate) fn advance(&mut self, caller: &Caller, calls: &[Call], before: u64) -> Event
        requires caller { IsCaller caller.now }
        requires calls { AreFitting caller.now.shape calls.now }
        requires known { ProgressIsKnown caller.now calls.now self.old }
        requires acts { IsAct (drivers.task_next caller.now self.old.task) }
        requires fits { drivers.TaskFits self.old.task before }
        ensures progress { self.new ≡ drivers.progress_fed caller.now calls.now self.old before }
        ensures event { result ≡ drivers.task_event self.old.task before }
    {
        match &mut self.task {
            // most looks of a wait find nothing new
            Task::Attempting(attempt) if attempt.waits_on(before) => {
                self.within = true;
                Event::Nothing
            }
            Task::Attempting(attempt) => {
                let event = attempt.feed(before);
                let ends = attempt.has_ended();
                self.go_on(caller, calls, ends);
                event
            }
            Task::Awaiting(_) => {
                self.advance_wait(caller, calls, before);
                Event::Nothing
            }
            Task::Finishing | Task::Ended => {
                self.task = Task::Ended;
                Event::Nothing
            }
        }
    }

    /// After a step of an attempt, which may have ended it: it goes on with the attempt, or with what follows it.
    #[inline(always)]
    #[tactic(auto, using(crate::proofs::Tasks::goes_on))]
    pub(crate) fn go_on(&mut self, caller: &Caller, calls: &[Call], ends: bool)
        requires caller { IsCaller caller.now }
        requires calls { AreFitting caller.now.shape calls.now }
        requires same { drivers.IsOf caller.now self.old.task }
        requires call { drivers.MakesFitting caller.now.shape self.old.task }
        requires done { self.old.done + 1 < 2 ^ 32 }
        requires ends { (attempt : Calling) → self.old.task ≡ tasks.Attempting attempt →
            ends ≡ is_some (calling.outcome_in attempt.stage) }
        ensures { (attempt : Calling) → self.old.task ≡ tasks.Attempting attempt →
            self.new ≡ drivers.after_attempt caller.now calls.now self.old attempt }
    {
        if ends {
            self.end_attempt(caller, calls);
        } else {
            self.within = true;
        }
    }

    /// Whether it makes an attempt whose next step may be made at once.
    pub(crate) fn steps_at_once(&self) -> bool
        ensures { IsTrue result → drivers.AttemptActs self.now.task }
    {
        match &self.task {
            Task::Attempting(attempt) => attempt.steps_at_once(),
            _ => false,
        }
    }

    /// After an attempt that has ended: the next call, the wait for a cycle, or the attempt again. Most
    /// steps end none, and are faster where this stands apart.
    #[inline(never)]
    #[tactic(auto, using(crate::proofs::Tasks::one_attempt))]
    fn end_attempt(&mut self, caller: &Caller, calls: &[Call])
        requires caller { IsCaller caller.now }
        requires calls { AreFitting caller.now.shape calls.now }
        requires same { drivers.IsOf caller.now self.old.task }
        requires call { drivers.MakesFitting caller.now.shape self.old.task }
        requires done { self.old.done + 1 < 2 ^ 32 }
        ensures { (attempt : Calling) → self.old.task ≡ tasks.Attempting attempt →
            self.new ≡ drivers.after_attempt caller.now calls.now self.old attempt }
    {
        let Task::Attempting(attempt) = &mut self.task else {
            return;
        };
        let Some((outcome, keep)) = attempt.outcome() else {
            self.within = true;
            return;
        };
        match outcome {
            Attempt::Answer(_) => {
                self.done += 1;
                self.within = false;
                match call_at(calls, self.done) {
                    Some(call) => attempt.begin(call, false, keep),
                    None => self.task = Task::Finishing,
                }
            }
            Attempt::Full => {
                self.within = true;
                self.task = Task::awaiting(caller, keep);
            }
            Attempt::Pause(_) => {
                let (call, last) = attempt.of();
                self.within = true;
                attempt.begin(call, last, keep);
            }
        }
    }

    /// Makes the step of a wait that found this word.
    #[inline(never)]
    fn advance_wait(&mut self, caller: &Caller, calls: &[Call], before: u64)
        requires caller { IsCaller caller.now }
        requires calls { AreFitting caller.now.shape calls.now }
        requires same { drivers.IsOf caller.now self.old.task }
        requires acts { IsAct (drivers.task_next caller.now self.old.task) }
        requires fits { drivers.TaskFits self.old.task before }
        ensures { (wait : Calling) → self.old.task ≡ tasks.Awaiting wait →
            self.new ≡ drivers.after_wait caller.now calls.now self.old (calling.fed wait before) }
    {
        if let Task::Awaiting(wait) = &mut self.task {
            let _told = wait.feed(before);
            let wait = *wait;
            *self = self.after_wait(caller, calls, wait);
        }
    }

    /// It waits on, or makes the last attempt of the call that found no room.
    fn after_wait(&self, caller: &Caller, calls: &[Call], wait: CallMachine) -> Progress
        requires caller { IsCaller caller.now }
        requires calls { AreFitting caller.now.shape calls.now }
        requires same { wait.caller ≡ caller.now }
        ensures { result ≡ drivers.after_wait caller.now calls.now self.now wait }
    {
        let Some((outcome, keep)) = wait.outcome() else {
            return self.within(Task::Awaiting(wait));
        };
        match outcome {
            Attempt::Answer(_) => {
                let call = call_at(calls, self.done);
                self.within(Task::attempt(caller, call, true, keep))
            }
            Attempt::Full | Attempt::Pause(_) => self.within(Task::awaiting(caller, keep)),
        }
    }

    /// Within the next call, at this task.
    fn within(&self, task: Task) -> Progress
        ensures { result ≡ drivers.within self.now task }
    {
        Progress {
            done: self.done,
            within: true,
            task,
        }
    }

    pub(crate) fn place(&self) -> Place
        ensures { result ≡ drivers.place_at self.now }
    {
        match self.task {
            Task::Ended => Place::Ended,
            _ if self.within => Place::Within(self.done),
            _ => Place::Before(self.done),
        }
    }
}

/// The call with this number, if there is one.
fn call_at(calls: &[Call], number: u32) -> Option<Call>
    ensures { result ≡ slice_get calls.now number }
{
    calls.get(number as usize).copied()
}
