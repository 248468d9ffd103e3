//! The seats of a script before their first steps, and a server's at its end.

use crate::Seat;
use mako_model::Event;
use mako_mutator::{Driver, Place};
use mako_pause::Collector;
use mako_script::parse;
use mako_server::Server;
use mako_shape::{Numbers, Shape};
use mako_step::Machine;
use std::test::Fail;

const SCRIPT: &[u8] =
    b"mako 1\nservers 1\ntablets 1\nentries 4\nwords 16\nspare 1\nring 2\nroots 4\ncycles 5\ngens 3\nboard 1\nmutator\nnum n 7\nend\n";

/// The geometry of the script.
const NUMBERS: Numbers = Numbers {
    mutators: 1,
    servers: 1,
    tablets: 1,
    entries: 4,
    words: 16,
    spare: 1,
    ring: 2,
    roots: 4,
    cycles: 5,
    generations: 3,
};

/// The word of Stop in cycle 0.
const STOP: u64 = 0x3_0000_0000;

#[test]
fn begins_before_its_first_call(rt: HostRuntime) -> Result<(), Fail> {
    let Ok(script) = parse(rt.alloc(), SCRIPT) else {
        panic!(rt; "no script");
    };
    assert_eq!(rt; script.programs.len(), 1);
    let seat = Seat::Mutator(Driver::new(rt.alloc(), &script, 0)?);
    assert_eq!(rt; seat.place(), Place::Before(0));
    Ok(())
}

#[test]
fn serves_from_the_start(rt: HostRuntime) -> Result<(), Fail> {
    let Ok(script) = parse(rt.alloc(), SCRIPT) else {
        panic!(rt; "no script");
    };
    let seat = Seat::Collector(Collector::new(rt.alloc(), &script)?);
    assert_eq!(rt; seat.place(), Place::Serving);
    Ok(())
}

#[test]
fn serves_until_it_ends(rt: HostRuntime) -> Result<(), Fail> {
    let server = Server::new(rt.alloc(), Shape::new(NUMBERS)?, 0)?;
    assert_eq!(rt; Seat::Server(server).place(), Place::Serving);
    let mut ended = Server::new(rt.alloc(), Shape::new(NUMBERS)?, 0)?;
    assert_eq!(rt; ended.feed(STOP), Event::Nothing);
    assert_eq!(rt; Seat::Server(ended).place(), Place::Ended);
    Ok(())
}
