//! The machine of a seat.

ghost use Rattle.std.specs.Prelude.{◌≡◌, ◌≤◌, if◌then◌else◌, length};
ghost use Rattle.mako_step.specs.Acts.{finds, words_stepped};
ghost use Rattle.mako_step.specs.Machines.{CanStep, machine_stepped};
ghost use Rattle.mako_step.specs.Stepping.{stepped};
ghost use Rattle.mako_mutator.specs.Telling.{history_after, told_by, untold};
ghost use Rattle.mako_mutator.specs.declared.place.Place.TheVariants as places;
ghost use Rattle.mako_seat.specs.Seats as seats;

use mako_model::Journal;
use mako_mutator::{Driver, Place, tell};
use mako_pause::Collector;
use mako_server::Server;
use mako_step::{Stepped, Words, make_step};

/// The machine of a seat.
#[derive(Drop)]
pub enum Seat {
    Mutator(Driver),
    Server(Server),
    Collector(Collector),
}

/// The place of a server or of the collector, which is at its end or not.
fn serving_place(ended: bool) -> Place
    ensures { result ≡ (if ended then places.Ended else places.Serving) }
{
    if ended { Place::Ended } else { Place::Serving }
}

impl Seat {
    /// How far it has come.
    pub fn place(&self) -> Place
        ensures { result ≡ seats.place_of self.now }
    {
        match self {
            Seat::Mutator(driver) => driver.place(),
            Seat::Server(server) => serving_place(server.is_ended()),
            Seat::Collector(collector) => serving_place(collector.is_ended()),
        }
    }

    /// Makes its next step on the words, and what the step tells goes into the journal.
    #[inline(always)]
    pub fn step<W: Words>(&mut self, words: &mut W, journal: &mut Journal) -> Stepped<()>
        requires can { CanStep (seats.next_of self.old) (W.words words.old) (seats.Fits self.old) }
        requires room { let found = finds (seats.next_of self.old) (W.words words.old) in
            let step = stepped (seats.next_of self.old) (seats.is_waiting self.old found) found (seats.event_of self.old found) in
            length (history_after journal.old.points (told_by step)) ≤ journal.old.room }
        ensures words { W.words words.new ≡ words_stepped (seats.next_of self.old) (W.words words.old) }
        ensures machine { let found = finds (seats.next_of self.old) (W.words words.old) in
            self.new ≡ machine_stepped (seats.next_of self.old) self.old (seats.fed self.old found) }
        ensures points { let found = finds (seats.next_of self.old) (W.words words.old) in
            let step = stepped (seats.next_of self.old) (seats.is_waiting self.old found) found (seats.event_of self.old found) in
            journal.new.points ≡ history_after journal.old.points (told_by step) }
        ensures room { journal.new.room ≡ journal.old.room }
        ensures result { let found = finds (seats.next_of self.old) (W.words words.old) in result ≡
            untold (stepped (seats.next_of self.old) (seats.is_waiting self.old found) found
            (seats.event_of self.old found)) }
    {
        match self {
            Seat::Mutator(driver) => driver.step(words, journal),
            Seat::Server(server) => tell(make_step(server, words), journal),
            Seat::Collector(collector) => tell(collector.step(words), journal),
        }
    }
}
