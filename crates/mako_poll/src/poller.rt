//! The poll for completion.

ghost use Rattle.std.specs.Prelude.{◌≡◌, false};
ghost use Rattle.mako_shape.specs.Places.{total};
ghost use Rattle.mako_step.specs.Acts.{IsWithin};

use mako_shape::Shape;
use mako_step::{Machine, Step};
use mako_words::FlagWord;
use std::marker::Model;

/// What a poll comes to.
#[derive(Clone, Copy, Debug, PartialEq, Eq)]
pub enum Polled {
    /// Completion is told: nothing is left to trace but what stands in barrier rings.
    Told,
    /// Pass 1 found this server busy or with a name on its way, or pass 2 found its flags not 0.
    NotYet { server: u32, word: u64 },
}

/// Where a poll stands.
#[derive(Clone, Copy)]
pub enum PollStage {
    /// Pass 1: next it takes the flag changed away from this server's flags.
    Asking(u32),
    /// Pass 2: next it loads this server's flags.
    Reading(u32),
    Ended(Polled),
}

/// Polls all servers twice. Pass 1 takes the flag changed away from each server's flags, and ends the
/// poll where it finds busy or ghost. Pass 2 reads all flags again, and ends the poll where they are
/// not 0: a server that was given work behind pass 1 has raised changed since.
#[derive(Drop)]
pub struct Poller {
    shape: Shape,
    stage: PollStage,
}

impl Model for Poller {
    ghost use Rattle.mako_poll.specs.Polls.{PollView, IsKnown};

    ghost Value = { PollView };

    ghost view = { λ p. record { shape = p.shape; stage = p.stage } };

    ghost invariant = { λ p. IsKnown p.shape p.stage };
}

impl Poller {
    ghost use Rattle.mako_step.specs.declared.step.Step.TheVariants.{Ended};
    ghost use Rattle.mako_poll.specs.Polls.{next_of};
    ghost use Rattle.mako_poll.specs.declared.poller.PollStage.TheVariants as stages;

    /// A poll of all servers of this geometry.
    pub fn new(shape: Shape) -> Poller
        ensures { result ≡ record { shape = shape; stage = stages.Asking 0 } }
    {
        let _numbers = shape.numbers();
        Poller {
            shape,
            stage: PollStage::Asking(0),
        }
    }

    /// What the poll came to.
    pub fn result(&self) -> Polled
        requires { next_of self.now ≡ Ended }
        ensures { self.now.stage ≡ stages.Ended result }
    {
        match self.stage {
            PollStage::Ended(polled) => polled,
            _ => unreachable!(),
        }
    }
}

impl Machine for Poller {
    type Event = ();

    ghost use Rattle.mako_poll.specs.Polls as polls;

    ghost next_of = { polls.next_of };

    ghost Fits = { polls.Fits };

    ghost fed = { polls.fed };

    ghost event_of = { λ _ _. tt };

    ghost is_waiting = { λ _ _. false };

    ghost is_renewed = { λ _ _. false };

    ghost rank = { polls.rank };

    fn next(&self) -> Step
        ensures next { result ≡ polls.next_of self.now }
        ensures within { IsWithin (total self.now.shape) result }
    {
        match self.stage {
            PollStage::Asking(server) => Step::and(self.shape.flags(server), !FlagWord::CHANGED),
            PollStage::Reading(server) => Step::load(self.shape.flags(server)),
            PollStage::Ended(_) => Step::Ended,
        }
    }

    fn waits(&self, _before: u64) -> bool {
        false
    }

    fn feed(&mut self, before: u64) {
        let servers = self.shape.numbers().servers;
        self.stage = match self.stage {
            PollStage::Asking(server) if has_work(before) => PollStage::Ended(Polled::NotYet {
                server,
                word: before,
            }),
            PollStage::Asking(server) if server + 1 == servers => PollStage::Reading(0),
            PollStage::Asking(server) => PollStage::Asking(server + 1),
            PollStage::Reading(server) if before != 0 => PollStage::Ended(Polled::NotYet {
                server,
                word: before,
            }),
            PollStage::Reading(server) if server + 1 == servers => PollStage::Ended(Polled::Told),
            PollStage::Reading(server) => PollStage::Reading(server + 1),
            PollStage::Ended(polled) => PollStage::Ended(polled),
        };
    }
}

ghost use Rattle.mako_words.specs.Flags.{IsPackedFlags};
ghost use Rattle.mako_poll.specs.Polls.{has_work};

/// Whether flags of this word have busy or ghost.
fn has_work(word: u64) -> bool
    requires { IsPackedFlags word }
    ensures { result ≡ has_work word }
{
    match FlagWord::unpack(word) {
        Some(flags) => flags.busy || flags.ghost_,
        None => unreachable!(),
    }
}
