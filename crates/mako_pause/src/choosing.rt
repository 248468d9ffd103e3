//! The collector while it chooses tablets and gives them regions.

ghost use Rattle.std.specs.Prelude.{◌≡◌, ◌<◌, ◌≤◌, ◌+◌, ◌*◌, length};
ghost use Rattle.mako_shape.specs.Places.{total};
ghost use Rattle.mako_step.specs.Acts.{IsWithin};
ghost use Rattle.mako_pause.specs.Collecting as collecting;
ghost use Rattle.mako_pause.specs.Collecting.{at, ChoiceFits};
ghost use Rattle.mako_pause.specs.Keeping.{Runs, ChoiceIsKnown};

use crate::kept::Kept;
use crate::stage::{ChoiceStage, CollectStage, Gift, NoticeStage};
use mako_step::Step;
use mako_words::{GateWord, PhaseWord};

/// The tablet at a place among its server's.
fn tablet_at(kept: &Kept, server: u32, place: u32) -> u32
    requires server { server < kept.now.shape.servers }
    requires place { place < kept.now.shape.tablets }
    ensures tablet { result ≡ server * kept.now.shape.tablets + place }
    ensures below { result < kept.now.shape.servers * kept.now.shape.tablets }
{
    server * kept.numbers().tablets + place
}

impl ChoiceStage {
    pub(crate) fn next(self, kept: &Kept) -> Step
        requires runs { Runs kept.now }
        requires known { ChoiceIsKnown kept.now self }
        ensures next { result ≡ collecting.choice_next kept.now self }
        ensures within { IsWithin (total kept.now.shape) result }
    {
        let shape = kept.shape();
        match self {
            ChoiceStage::LoadingLive { server, place } => {
                Step::load(shape.live(tablet_at(kept, server, place)))
            }
            ChoiceStage::LoadingTop { server, place, .. } => {
                Step::load(shape.top(tablet_at(kept, server, place)))
            }
            ChoiceStage::LoadingHome(number) => Step::load(shape.home(kept.chosen_tablet(number))),
            ChoiceStage::StoringLeaving(number, gift) => {
                Step::store(
                    shape.leaving(kept.chosen_tablet(number)),
                    u64::from(gift.former) + 1,
                )
            }
            ChoiceStage::StoringHome(number, gift) => {
                Step::store(
                    shape.home(kept.chosen_tablet(number)),
                    u64::from(gift.region),
                )
            }
            ChoiceStage::StoringTop(number) => {
                Step::store(shape.top(kept.chosen_tablet(number)), 0)
            }
            ChoiceStage::StoringEvac => {
                Step::store(shape.phase(), PhaseWord::Evac(kept.running()).pack())
            }
            ChoiceStage::Opening(mutator) => {
                Step::and(shape.mutator_gate(mutator), !GateWord::SHUT)
            }
        }
    }

    pub(crate) fn fed(self, kept: &mut Kept, before: u64) -> CollectStage
        requires runs { Runs kept.old }
        requires known { ChoiceIsKnown kept.old self }
        requires fits { ChoiceFits kept.old self before }
        ensures { at kept.new result ≡ collecting.choice_fed kept.old self before }
    {
        let numbers = kept.numbers();
        let mutators = numbers.mutators;
        match self {
            ChoiceStage::LoadingLive { server, place } => {
                let live = kept.live_words(before);
                CollectStage::Choosing(ChoiceStage::LoadingTop {
                    server,
                    place,
                    live,
                })
            }
            ChoiceStage::LoadingTop {
                server,
                place,
                live,
            } => {
                kept.keep_used(before as u32, live);
                after_tablet(kept, server, place)
            }
            ChoiceStage::LoadingHome(number) => gift_of(kept, number, before as u32),
            ChoiceStage::StoringLeaving(number, gift) => {
                CollectStage::Choosing(ChoiceStage::StoringHome(number, gift))
            }
            ChoiceStage::StoringHome(number, gift) => {
                kept.give(gift);
                CollectStage::Choosing(ChoiceStage::StoringTop(number))
            }
            ChoiceStage::StoringTop(number) => kept.gifts_after(number),
            ChoiceStage::StoringEvac => {
                kept.evacuating();
                CollectStage::Choosing(ChoiceStage::Opening(0))
            }
            ChoiceStage::Opening(mutator) if mutator + 1 == mutators => {
                CollectStage::Noticing(NoticeStage::Looking(0))
            }
            ChoiceStage::Opening(mutator) => {
                CollectStage::Choosing(ChoiceStage::Opening(mutator + 1))
            }
        }
    }
}

/// The tablet behind this one is loaded next. Behind the last of a server its choice is made.
fn after_tablet(kept: &mut Kept, server: u32, place: u32) -> CollectStage
    requires server { server < kept.old.shape.servers }
    requires place { place < kept.old.shape.tablets }
    requires used { length kept.old.used ≡ place + 1 }
    requires chosen { length kept.old.chosen ≤ server * kept.old.shape.spare }
    ensures { at kept.new result ≡ collecting.after_tablet kept.old server place }
{
    let numbers = kept.numbers();
    if place + 1 == numbers.tablets {
        kept.choose(server);
        return kept.servers_from(server + 1);
    }
    let place = place + 1;
    CollectStage::Choosing(ChoiceStage::LoadingLive { server, place })
}

/// What the tablet gets whose home was loaded.
fn gift_of(kept: &Kept, number: usize, former: u32) -> CollectStage
    requires { number < length kept.now.chosen }
    ensures { at kept.now result ≡ collecting.gift_of kept.now number former
        (collecting.spare_for kept.now (collecting.chosen_tablet kept.now number)) }
{
    match kept.spare_for(kept.chosen_tablet(number)) {
        Some(region) => {
            CollectStage::Choosing(ChoiceStage::StoringLeaving(number, Gift { former, region }))
        }
        None => CollectStage::Choosing(ChoiceStage::StoringEvac),
    }
}
