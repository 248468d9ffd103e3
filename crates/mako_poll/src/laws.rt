//! Laws of polls. The functions do nothing; what they ensure is for contracts and proofs.
//!
//! A scene is what rings, flags and polls read of a state; a world has the machines themselves, on
//! one list of words. Each law is for any number of servers and every size of rings from 1.

ghost use Rattle.mako_poll.specs.Laws.{ChainsHold, OpeningHolds, QuietStays, StandsSaysHolds, StepsHold, ToldIsQuiet};
ghost use Rattle.mako_poll.specs.Laws.{UnrestShows, WritesAreOne};
ghost use Rattle.mako_poll.specs.Polls.{PollsAnswer};
ghost use Rattle.mako_poll.specs.Worlds.{OpeningIsTold, OpeningStands, ToldImpliesQuiet, WorldsStand};

/// The polling invariant with its further facts holds in the opening state, of scenes and of worlds.
pub fn opening()
    ensures scene { OpeningHolds }
    ensures world { OpeningStands }
{}

/// Each kind of step of a server and of the collector keeps it, so every list of steps does, and so
/// does every list of steps of the machines.
pub fn steps()
    ensures kinds { StepsHold }
    ensures lists { ChainsHold }
    ensures machines { WorldsStand }
{}

/// Told implies quiet: a poll that has ended with `Told`, after any list of steps of any number of
/// servers and the collector, has found the heap quiet.
pub fn told()
    ensures { ToldImpliesQuiet }
{}

/// Polls are told: with one server, one that begins in the opening state is.
pub fn tells()
    ensures { OpeningIsTold }
{}

/// What a poll knows on the way. Of the servers that pass 1 found clean, each shows a change or still
/// is clean. In pass 2 the heap is quiet, or a server that has still to be read shows a change, and
/// with all read it is quiet. Quiet stays through each step of a server.
pub fn passes()
    ensures words { StandsSaysHolds }
    ensures second { UnrestShows }
    ensures past { ToldIsQuiet }
    ensures stays { QuietStays }
{}

/// When a poll gives each of its answers.
pub fn answers()
    ensures { PollsAnswer }
{}

/// A write into the list of all words is the write of one word by place.
pub fn writes()
    ensures { WritesAreOne }
{}
