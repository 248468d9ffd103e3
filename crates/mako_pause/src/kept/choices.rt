//! What the collector keeps of tablets: what is loaded, which are chosen, and what they get.

ghost use Rattle.std.specs.Prelude.{◌≡◌, ◌<◌, ◌≤◌, ◌+◌, ◌*◌, ◌^◌, ◌++◌, ◌∷◌, [], All, length, map, slice_set};
ghost use Rattle.std.specs.Prelude.{vec_capacity};
ghost use Rattle.mako_words.specs.Lives.{IsPackedLive};
ghost use Rattle.mako_pause.specs.Collecting as collecting;
ghost use Rattle.mako_pause.specs.Collecting.{at, running};
ghost use Rattle.mako_pause.specs.Keeping.{Runs, all_regions};
ghost use Rattle.mako_pause.specs.declared.regions.Role.TheVariants as roles;

use crate::kept::Kept;
use crate::regions::{Role, spare_between};
use crate::stage::{ChoiceStage, CollectStage, Gift};
use mako_choice::Used;
use mako_words::LiveWord;

impl Kept {
    /// The words of a live word: those of another cycle do not count.
    pub(crate) fn live_words(&self, word: u64) -> u32
        requires { IsPackedLive word }
        ensures { result ≡ collecting.live_words self.now word }
    {
        match LiveWord::unpack(word) {
            Some(live) if live.cycle == self.cycle + 1 => live.words,
            _ => 0,
        }
    }

    /// Keeps what was loaded of a tablet.
    pub(crate) fn keep_used(&mut self, top: u32, live: u32)
        requires { length self.old.used < self.old.shape.tablets }
        ensures { self.new ≡ record self.old { used = self.old.used ++ record { top = top; live = live } ∷ [] } }
    {
        self.used.push_reserved(Used { top, live });
    }

    /// All tablets of the server are loaded: chooses among them.
    pub(crate) fn choose(&mut self, server: u32)
        requires server { server < self.old.shape.servers }
        requires used { length self.old.used ≡ self.old.shape.tablets }
        requires chosen { length self.old.chosen ≤ server * self.old.shape.spare }
        ensures { self.new ≡ collecting.server_chosen self.old server }
    {
        let numbers = self.numbers();
        self.chooser.select(&self.used, numbers.spare);
        keep_chosen(
            &mut self.chosen,
            self.chooser.chosen(),
            server * numbers.tablets,
        );
        self.used.clear();
    }

    /// The tablets of the next server are loaded, and past the last server the chosen tablets get regions.
    pub(crate) fn servers_from(&mut self, server: u32) -> CollectStage
        ensures { at self.new result ≡ collecting.servers_from self.old server }
    {
        if server == self.numbers().servers {
            self.gifts_from(0)
        } else {
            CollectStage::Choosing(ChoiceStage::LoadingLive { server, place: 0 })
        }
    }

    /// The chosen tablet behind this one, and past the last the phase Evac.
    pub(crate) fn gifts_after(&self, number: usize) -> CollectStage
        requires { number < length self.now.chosen }
        ensures { at self.now result ≡ collecting.gifts_from self.now (number + 1) }
    {
        let count = self.chosen.len();
        if number + 1 < count {
            CollectStage::Choosing(ChoiceStage::LoadingHome(number + 1))
        } else {
            CollectStage::Choosing(ChoiceStage::StoringEvac)
        }
    }

    /// The chosen tablet with this number, and past the last the phase Evac.
    fn gifts_from(&self, number: usize) -> CollectStage
        ensures { at self.now result ≡ collecting.gifts_from self.now number }
    {
        if number < self.chosen.len() {
            CollectStage::Choosing(ChoiceStage::LoadingHome(number))
        } else {
            CollectStage::Choosing(ChoiceStage::StoringEvac)
        }
    }

    /// The chosen tablet with this number.
    pub(crate) fn chosen_tablet(&self, number: usize) -> u32
        requires { number < length self.now.chosen }
        ensures tablet { result ≡ collecting.chosen_tablet self.now number }
        ensures below { result < self.now.shape.servers * self.now.shape.tablets }
    {
        self.chosen[number]
    }

    /// The lowest region that the tablet's server has to give.
    pub(crate) fn spare_for(&self, tablet: u32) -> Option<u32>
        requires { tablet < self.now.shape.servers * self.now.shape.tablets }
        ensures { result ≡ collecting.spare_for self.now tablet }
    {
        let numbers = self.numbers();
        let regions = numbers.tablets + numbers.spare;
        let server = tablet / numbers.tablets;
        spare_between(&self.roles, self.cycle + 1, server * regions, regions)
    }

    /// A tablet has a new home. The former region may be given out from the next cycle on.
    pub(crate) fn give(&mut self, gift: Gift)
        requires runs { Runs self.old }
        requires region { gift.region < all_regions self.old }
        requires former { gift.former < all_regions self.old }
        ensures { self.new ≡ record self.old {
          roles =
              slice_set (slice_set self.old.roles gift.region roles.Home) gift.former
              (roles.Spare (running self.old + 1));
        } }
    {
        let next = self.cycle + 2;
        self.roles[gift.region as usize] = Role::Home;
        self.roles[gift.former as usize] = Role::Spare(next);
    }
}

/// The tablets at these places, behind the first of their server, go behind those that are chosen already.
fn keep_chosen(chosen: &mut Vec<u32>, places: &[u32], first: u32)
    requires room { length chosen.old.items + length places.now ≤ vec_capacity chosen.old }
    requires few { All (λ place. first + place < 2 ^ 32) places.now }
    ensures chosen { chosen.new.items ≡ chosen.old.items ++ map (λ place. first + place) places.now }
    ensures capacity { vec_capacity chosen.new ≡ vec_capacity chosen.old }
{
    for place in places {
        chosen.push_reserved(first + *place);
    }
}
