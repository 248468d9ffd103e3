//! The collector, as a machine.

ghost use Rattle.std.specs.Prelude.{◌≡◌, ◌↔◌, ◌<◌, ◌^◌, true, IfOk, IsTrue, count_by, sum_by};
ghost use Rattle.mako_pause.specs.Opening.{is_new, names_of_all, news_of, opening};
ghost use Rattle.mako_shape.specs.Places.{total};
ghost use Rattle.mako_step.specs.Acts.{finds, words_stepped, IsWithin};
ghost use Rattle.mako_step.specs.Machines.{CanStep, IsAct, machine_stepped};
ghost use Rattle.mako_step.specs.Stepping.{stepped};
ghost use Rattle.mako_step.specs.declared.step.Step.TheVariants as steps;
ghost use Rattle.mako_pause.specs.Collecting as collecting;
ghost use Rattle.mako_pause.specs.Collecting.{at, StageFits};
ghost use Rattle.mako_pause.specs.Keeping.{StageIsKnown};
ghost use Rattle.mako_pause.specs.Ranks as ranks;

use crate::kept::Kept;
use crate::stage::{CollectStage, ForwardStage, IdleStage, NoticeStage, PauseStage};
use mako_model::{Call, Cycles, Event};
use mako_script::{Program, Script};
use mako_step::{Machine, Step, Stepped, Words, make_step};
use mako_words::{GateWord, Memory};
use std::alloc::Global;
use std::marker::Model;

impl CollectStage {
    fn next(self, kept: &Kept) -> Step
        requires { StageIsKnown kept.now self }
        ensures next { result ≡ collecting.stage_next kept.now self }
        ensures within { IsWithin (total kept.now.shape) result }
    {
        match self {
            CollectStage::Idle(stage) => stage.next(kept),
            CollectStage::Pausing(stage) => stage.next(kept),
            CollectStage::Forwarding(stage) => stage.next(kept),
            CollectStage::Barriers(stage) => stage.next(kept),
            CollectStage::Emptying(server) => kept.empty_next(server),
            CollectStage::Polling => kept.poll_next(),
            CollectStage::Choosing(stage) => stage.next(kept),
            CollectStage::Noticing(stage) => stage.next(kept),
            CollectStage::Ended => Step::Ended,
        }
    }

    /// Whether it is a look that does not find what it waits for.
    fn waits(self, kept: &Kept, before: u64) -> bool
        ensures { result ≡ ranks.stage_waits kept.now self before }
    {
        match self {
            CollectStage::Idle(stage) => stage.waits(kept, before),
            CollectStage::Pausing(PauseStage::Draining(..)) => before % GateWord::SHUT > 0,
            CollectStage::Forwarding(ForwardStage::Looking(_)) | CollectStage::Emptying(_) => {
                before != 0
            }
            CollectStage::Noticing(NoticeStage::Looking(_)) => before == 0,
            _ => false,
        }
    }

    /// What its step tells.
    fn event(self, kept: &Kept) -> Event
        requires { StageIsKnown kept.now self }
        ensures { result ≡ collecting.stage_event kept.now self }
    {
        match self {
            CollectStage::Pausing(PauseStage::StoringTrace) => Event::Snapped(kept.running()),
            CollectStage::Noticing(NoticeStage::StoringIdle) => Event::Finished(kept.running()),
            _ => Event::Nothing,
        }
    }

    /// Goes on with the word that its act found. Each arm writes the stage itself, since most looks find nothing to do.
    fn feed(&mut self, kept: &mut Kept, before: u64)
        requires known { StageIsKnown kept.old self.old }
        requires acts { IsAct (collecting.stage_next kept.old self.old) }
        requires fits { StageFits kept.old self.old before }
        ensures { at kept.new self.new ≡ collecting.stage_fed kept.old self.old before }
    {
        match *self {
            CollectStage::Idle(stage) => *self = stage.fed(kept, before),
            CollectStage::Pausing(stage) => *self = stage.fed(kept, before),
            CollectStage::Forwarding(stage) => *self = stage.fed(kept, before),
            CollectStage::Barriers(stage) => *self = stage.fed(kept, before),
            CollectStage::Emptying(server) => *self = kept.empty_fed(server, before),
            CollectStage::Polling => *self = kept.poll_fed(before),
            CollectStage::Choosing(stage) => *self = stage.fed(kept, before),
            CollectStage::Noticing(stage) => *self = stage.fed(kept, before),
            CollectStage::Ended => {}
        }
    }
}

/// Runs cycle after cycle as they are asked for, and stops once all mutators are at their end. In a cycle
/// it pauses the mutators for the snapshot, forwards names to the servers until completion is told twice,
/// the second time in a pause, chooses tablets, and takes the servers' notices.
#[derive(Drop)]
pub struct Collector {
    kept: Kept,
    stage: CollectStage,
}

impl Model for Collector {
    ghost use Rattle.mako_pause.specs.Collecting.{Collecting};
    ghost use Rattle.mako_pause.specs.Keeping.{StageIsKnown};

    ghost Value = { Collecting };

    ghost view = { λ c. record { kept = c.kept; stage = c.stage } };

    ghost invariant = { λ c. StageIsKnown c.kept c.stage };
}

/// How many of the calls may make an object.
fn count_news(calls: &[Call]) -> usize
    ensures { result ≡ count_by is_new calls.now }
{
    calls
        .iter()
        .filter(|call| matches!(call, Call::New { .. }))
        .count()
}

/// How many names may be freed in a run of these programs: one for each such call, and the board's.
fn count_names(programs: &[Program]) -> usize
    requires { sum_by news_of programs.now < 2 ^ 32 }
    ensures { result ≡ names_of_all programs.now }
{
    let news: usize = programs
        .iter()
        .map(|program| count_news(program.calls.as_slice()))
        .sum();
    news + 1
}

impl Collector {
    ghost use Rattle.mako_pause.specs.declared.stage.CollectStage.TheVariants as stages;

    /// The collector of a run of this script, before its first step. It takes all memory that it ever takes.
    pub fn new(alloc: Global, script: &Script) -> Result<Collector, Memory>
        ensures { IfOk result (λ c. c ≡ opening script.now) }
    {
        let names = count_names(script.programs.as_slice());
        let kept = Kept::new(alloc, script.shape, names)?;
        Ok(Collector {
            kept,
            stage: CollectStage::Idle(IdleStage::LoadingDemand),
        })
    }

    /// Whether it has stopped the heap.
    pub fn is_ended(&self) -> bool
        ensures { IsTrue result ↔ (collecting.next_of self.now ≡ steps.Ended) }
    {
        match self.stage {
            CollectStage::Ended => true,
            CollectStage::Polling => matches!(self.kept.poll_next(), Step::Ended),
            _ => false,
        }
    }

    /// Makes its next step on the words. The looks between cycles are known where this is compiled, so that one jump
    /// finds the act of a look and what follows.
    #[inline(always)]
    pub fn step<W: Words>(&mut self, words: &mut W) -> Stepped<Event>
        requires { CanStep (collecting.next_of self.old) (W.words words.old) (collecting.Fits self.old) }
        ensures words { W.words words.new ≡ words_stepped (collecting.next_of self.old) (W.words words.old) }
        ensures machine { let found = finds (collecting.next_of self.old) (W.words words.old) in
            self.new ≡ machine_stepped (collecting.next_of self.old) self.old (collecting.fed self.old found) }
        ensures result { let found = finds (collecting.next_of self.old) (W.words words.old) in result ≡ stepped
            (collecting.next_of self.old) (ranks.is_waiting self.old found) found (collecting.event_of self.old found) }
    {
        match self.stage {
            CollectStage::Idle(IdleStage::LoadingDemand) => {
                self.step_idle(IdleStage::LoadingDemand, words)
            }
            CollectStage::Idle(IdleStage::LookingFinished) => {
                self.step_idle(IdleStage::LookingFinished, words)
            }
            _ => make_step(self, words),
        }
    }

    /// Makes the step of this stage between cycles, its own.
    #[inline(always)]
    fn step_idle<W: Words>(&mut self, stage: IdleStage, words: &mut W) -> Stepped<Event>
        requires own { self.old.stage ≡ stages.Idle stage }
        requires acts { IsAct (collecting.next_of self.old) }
        requires can { CanStep (collecting.next_of self.old) (W.words words.old) (collecting.Fits self.old) }
        ensures words { W.words words.new ≡ words_stepped (collecting.next_of self.old) (W.words words.old) }
        ensures machine { let found = finds (collecting.next_of self.old) (W.words words.old) in
            self.new ≡ machine_stepped (collecting.next_of self.old) self.old (collecting.fed self.old found) }
        ensures result { let found = finds (collecting.next_of self.old) (W.words words.old) in result ≡ stepped
            (collecting.next_of self.old) (ranks.is_waiting self.old found) found (collecting.event_of self.old found) }
    {
        let _known = self.kept.numbers();
        let Step::Do(act) = stage.next(&self.kept) else {
            unreachable!()
        };
        let found = words.act(act);
        let waits = stage.waits(&self.kept, found);
        self.stage = stage.fed(&self.kept, found);
        if waits {
            return Stepped::Waiting(found);
        }
        Stepped::Moved(Event::Nothing)
    }

    /// The finished cycles, each with the names that it freed.
    pub fn cycles(&self) -> &Cycles
        ensures { result.now ≡ self.now.kept.cycles }
    {
        self.kept.cycles()
    }

    /// The same list. No memory is taken.
    pub fn into_cycles(self) -> Cycles
        ensures { result ≡ self.kept.cycles }
    {
        let Collector { kept, stage: _ } = self;
        kept.into_cycles()
    }

    /// Whether it can go on with this word, of a heap without garbage: for callers that know nothing of the words that
    /// are found. Where the answer is no, it may be able to all the same.
    pub fn can_go_on(&self, before: u64) -> bool
        ensures { result ≡ true → collecting.Fits self.now before }
    {
        self.stage.can_go_on(&self.kept, before)
    }
}

impl Machine for Collector {
    type Event = Event;

    ghost use Rattle.mako_pause.specs.Collecting as collecting;
    ghost use Rattle.mako_pause.specs.Ranks as ranks;

    ghost next_of = { collecting.next_of };

    ghost Fits = { collecting.Fits };

    ghost fed = { collecting.fed };

    ghost event_of = { collecting.event_of };

    ghost is_waiting = { ranks.is_waiting };

    ghost is_renewed = { ranks.is_renewed };

    ghost rank = { ranks.rank };

    fn next(&self) -> Step
        ensures next { result ≡ collecting.next_of self.now }
        ensures within { IsWithin (total self.now.kept.shape) result }
    {
        self.stage.next(&self.kept)
    }

    fn waits(&self, before: u64) -> bool {
        self.stage.waits(&self.kept, before)
    }

    fn feed(&mut self, before: u64) -> Event {
        let event = self.stage.event(&self.kept);
        let _known = self.kept.numbers();
        self.stage.feed(&mut self.kept, before);
        event
    }
}
