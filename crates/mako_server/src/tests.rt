//! Turns of a server that is alone in its heap, with one tablet of one entry, whose words are all 0 but for
//! the phase.

use crate::Server;
use mako_shape::{Numbers, Shape};
use mako_step::{Machine, Step};
use std::test::Fail;

const NUMBERS: Numbers = Numbers {
    mutators: 1,
    servers: 1,
    tablets: 1,
    entries: 1,
    words: 16,
    spare: 1,
    ring: 2,
    roots: 1,
    cycles: 5,
    generations: 1,
};

/// The words of the phases Trace, Evac and Stop of cycle 0.
const TRACE: u64 = 0x1_0000_0000;

const EVAC: u64 = 0x2_0000_0000;

const STOP: u64 = 0x3_0000_0000;

#[test]
fn waits_at_idle_and_ends_at_stop(rt: HostRuntime) -> Result<(), Fail> {
    let mut server = Server::new(rt.alloc(), Shape::new(NUMBERS)?, 0)?;
    assert!(rt; server.next() == Step::load(0));
    assert!(rt; server.waits(0));
    assert!(rt; server.waits(4));
    assert!(rt; !server.waits(TRACE + 1));
    assert!(rt; !server.waits(EVAC + 1));
    assert!(rt; !server.waits(STOP));
    server.feed(STOP + 1);
    assert!(rt; server.next() == Step::Ended);
    assert!(rt; server.is_ended());
    Ok(())
}

#[test]
fn looks_at_its_rings_in_trace(rt: HostRuntime) -> Result<(), Fail> {
    let mut server = Server::new(rt.alloc(), Shape::new(NUMBERS)?, 0)?;
    server.feed(TRACE + 1);
    // the first slot of its work ring, which is empty, and then the phase again
    assert!(rt; server.next() == Step::load(8));
    server.feed(0);
    assert!(rt; server.next() == Step::load(0));
    assert!(rt; !server.is_ended());
    Ok(())
}

#[test]
fn evacuates_once_in_a_cycle(rt: HostRuntime) -> Result<(), Fail> {
    let mut server = Server::new(rt.alloc(), Shape::new(NUMBERS)?, 0)?;
    server.feed(EVAC + 1);
    // its tablet leaves no region, its entry is free, and the first notice slot is empty
    assert!(rt; server.next() == Step::load(18));
    server.feed(0);
    assert!(rt; server.next() == Step::load(20));
    server.feed(0);
    assert!(rt; server.next() == Step::load(12));
    server.feed(0);
    assert!(rt; server.next() == Step::store(12, 1));
    server.feed(0);
    assert!(rt; server.next() == Step::load(0));
    assert!(rt; server.waits(EVAC + 1));
    assert!(rt; !server.waits(EVAC + 2));
    Ok(())
}
