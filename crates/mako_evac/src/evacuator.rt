//! The evacuation of a server, as a machine.

ghost use Rattle.std.specs.Prelude.{◌≡◌, ◌<◌, ◌≤◌, ◌↔◌, IsTrue};
ghost use Rattle.mako_shape.specs.Places.{total};
ghost use Rattle.mako_step.specs.Acts.{IsWithin};
ghost use Rattle.mako_step.specs.declared.step.Step.TheVariants as steps;
ghost use Rattle.mako_evac.specs.Owners.{IsOwner};
ghost use Rattle.mako_evac.specs.Evacuating as evacuating;

use crate::freeing::FreeStage;
use crate::owner::Owner;
use crate::stage::{EvacStage, at_tablet};
use mako_model::Event;
use mako_ring::next_place;
use mako_shape::Shape;
use mako_step::{Machine, Step};
use mako_words::NoticeWord;
use std::marker::Model;

/// Evacuates the tablets of a server in a cycle: copies the records of the cycle that are left behind
/// into their tablets' homes. Then it frees the server's entries of other cycles, and tells the
/// collector each name, and the end.
#[derive(Drop)]
pub struct Evacuator {
    pub(crate) owner: Owner,
    pub(crate) at: u64,
    pub(crate) stage: EvacStage,
}

impl Model for Evacuator {
    ghost use Rattle.mako_evac.specs.Evacuating.{Evacuation, IsKnown};

    ghost Value = { Evacuation };

    ghost view = { λ m. record { owner = m.owner; at = m.at; stage = m.stage } };

    ghost invariant = { λ m. IsKnown (record { owner = m.owner; at = m.at; stage = m.stage }) };

    ghost inverse = { λ v. record { owner = v.owner; at = v.at; stage = v.stage } };
}

impl Evacuator {
    ghost use Rattle.mako_evac.specs.declared.stage.EvacStage.TheVariants as stages;

    /// The evacuation of this server in this cycle. `at` is the slot of its notice ring for the next notice.
    pub fn new(shape: Shape, server: u32, cycle: u32, at: u64) -> Evacuator
        requires server { server < shape.servers }
        requires begun { 1 ≤ cycle }
        requires cycle { cycle ≤ shape.cycles }
        requires at { at < shape.ring }
        ensures { result ≡ evacuating.opening (record { shape = shape; server = server; cycle = cycle }) at }
    {
        let _numbers = shape.numbers();
        let owner = Owner {
            shape,
            server,
            cycle,
        };
        Evacuator {
            owner,
            at,
            stage: at_tablet(&owner, owner.first_tablet()),
        }
    }

    /// The cycle of the evacuation.
    pub fn cycle(&self) -> u32
        ensures cycle { result ≡ self.now.owner.cycle }
        ensures at_most { result ≤ self.now.owner.shape.cycles }
    {
        self.owner.cycle
    }

    /// Whether it has told its end.
    pub fn is_ended(&self) -> bool
        ensures { IsTrue result ↔ (evacuating.next_of self.now ≡ steps.Ended) }
    {
        matches!(self.stage, EvacStage::Ended)
    }

    /// The slot of the notice ring for the next notice, in the next cycle.
    pub fn result(&self) -> u64
        requires { evacuating.next_of self.now ≡ steps.Ended }
        ensures stage { self.now.stage ≡ stages.Ended }
        ensures at { result ≡ self.now.at }
        ensures below { result < self.now.owner.shape.ring }
    {
        self.at
    }

    /// The index of the notice slot that is due.
    fn slot(&self) -> u32
        ensures slot { result ≡ evacuating.slot_of self.now }
        ensures below { result < total self.now.owner.shape }
    {
        self.owner.shape.notice(self.owner.server, self.at as u32)
    }

    /// Where it stands after the word that its act found.
    fn stage_after(&self, before: u64) -> EvacStage
        requires { evacuating.Fits self.now before }
        ensures { result ≡ evacuating.stage_fed self.now.owner self.now.stage before }
    {
        let owner = &self.owner;
        match self.stage {
            EvacStage::Evacuating(tablet, stage) => stage.fed(owner, tablet, before),
            EvacStage::Freeing(entry, stage) => stage.fed(owner, entry, before),
            EvacStage::AwaitingEnd if before != 0 => EvacStage::AwaitingEnd,
            EvacStage::AwaitingEnd => EvacStage::TellingEnd,
            EvacStage::TellingEnd | EvacStage::Ended => EvacStage::Ended,
        }
    }

    /// The slot that is due then: the next one behind each notice.
    fn at_after(&self) -> u64
        ensures { result ≡ evacuating.at_fed self.now.owner.shape.ring self.now.at self.now.stage }
    {
        match self.stage {
            EvacStage::Freeing(_, FreeStage::Telling { .. }) | EvacStage::TellingEnd => {
                next_place(u64::from(self.owner.shape.numbers().ring), self.at)
            }
            _ => self.at,
        }
    }
}

impl Machine for Evacuator {
    type Event = Event;

    ghost use Rattle.mako_evac.specs.Evacuating as evacuating;
    ghost use Rattle.mako_model.specs.declared.event.Event.TheVariants.{Nothing};

    ghost next_of = { evacuating.next_of };

    ghost Fits = { evacuating.Fits };

    ghost fed = { evacuating.fed };

    ghost event_of = { λ _ _. Nothing };

    ghost is_waiting = { evacuating.is_waiting };

    ghost is_renewed = { evacuating.is_renewed };

    ghost rank = { evacuating.rank };

    fn next(&self) -> Step
        ensures next { result ≡ evacuating.next_of self.now }
        ensures within { IsWithin (total self.now.owner.shape) result }
    {
        let owner = &self.owner;
        match self.stage {
            EvacStage::Evacuating(tablet, stage) => stage.next(owner, tablet),
            EvacStage::Freeing(entry, stage) => stage.next(owner, self.slot(), entry),
            EvacStage::AwaitingEnd => Step::load(self.slot()),
            EvacStage::TellingEnd => Step::store(self.slot(), NoticeWord::Done.pack()),
            EvacStage::Ended => Step::Ended,
        }
    }

    fn waits(&self, before: u64) -> bool {
        match self.stage {
            EvacStage::Evacuating(_, stage) => stage.waits(before),
            EvacStage::Freeing(_, stage) => stage.waits(before),
            EvacStage::AwaitingEnd => before != 0,
            EvacStage::TellingEnd | EvacStage::Ended => false,
        }
    }

    fn feed(&mut self, before: u64) -> Event {
        let at = self.at_after();
        self.stage = self.stage_after(before);
        self.at = at;
        Event::Nothing
    }
}
