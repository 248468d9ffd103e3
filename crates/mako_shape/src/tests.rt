//! The limits of the ten numbers, and a geometry whose indexes are known.

use super::*;
use std::test::Fail;

/// One server with one tablet of four entries, and one mutator.
const SMALL: Numbers = Numbers {
    mutators: 1,
    servers: 1,
    tablets: 1,
    entries: 4,
    words: 16,
    spare: 1,
    ring: 2,
    roots: 4,
    cycles: 10,
    generations: 8,
};

/// Eight servers whose areas have 4,194,304 words together.
const FULL: Numbers = Numbers {
    mutators: 1,
    servers: 8,
    tablets: 7,
    entries: 9,
    words: 65_520,
    spare: 1,
    ring: 2,
    roots: 10,
    cycles: 10,
    generations: 8,
};

/// `SMALL` with another number at one place.
fn with(place: u8, number: u32) -> Numbers {
    let mut numbers = SMALL;
    match place {
        0 => numbers.mutators = number,
        1 => numbers.servers = number,
        2 => numbers.tablets = number,
        3 => numbers.entries = number,
        4 => numbers.words = number,
        5 => numbers.spare = number,
        6 => numbers.ring = number,
        7 => numbers.roots = number,
        8 => numbers.cycles = number,
        _ => numbers.generations = number,
    }
    numbers
}

#[test]
fn ranges(rt: HostRuntime) {
    for (place, least, greatest) in [
        (0, 1, 16),
        (1, 1, 8),
        (2, 1, 256),
        (3, 1, 1024),
        (4, 16, 65_536),
        (5, 1, 8),
        (6, 1, 64),
        (7, 1, 32),
        (8, 0, 1_048_575),
        (9, 1, 1_048_575),
    ] {
        let fault = Some(ShapeFault::OutOfRange(place));
        assert_eq!(rt; Shape::new(with(place, least)).err(), None, "at {place}");
        assert_eq!(rt; Shape::new(with(place, greatest)).err(), None, "at {place}");
        assert_eq!(rt;
            Shape::new(with(place, greatest.wrapping_add(1))).err(),
            fault,
            "at {place}"
        );
        if let Some(below) = least.checked_sub(1) {
            assert_eq!(rt; Shape::new(with(place, below)).err(), fault, "at {place}");
        }
    }
}

#[test]
fn faults_in_order(rt: HostRuntime) {
    let entries = Numbers {
        servers: 8,
        tablets: 256,
        entries: 513,
        ..SMALL
    };
    for (numbers, fault) in [
        (
            Numbers {
                mutators: 17,
                generations: 0,
                ..entries
            },
            Some(ShapeFault::OutOfRange(0)),
        ),
        (
            Numbers {
                generations: 0,
                ..entries
            },
            Some(ShapeFault::OutOfRange(9)),
        ),
        (
            Numbers {
                words: 65_536,
                ..entries
            },
            Some(ShapeFault::TooManyEntries),
        ),
        (entries, Some(ShapeFault::TooManyEntries)),
        (
            Numbers {
                entries: 512,
                ..entries
            },
            None,
        ),
        (FULL, None),
        (
            Numbers { roots: 11, ..FULL },
            Some(ShapeFault::TooManyWords),
        ),
    ] {
        assert_eq!(rt; Shape::new(numbers).err(), fault, "at {numbers:?}");
    }
}

#[test]
fn indexes(rt: HostRuntime) -> Result<(), Fail> {
    let shape = Shape::new(SMALL)?;
    assert_eq!(rt; shape.numbers(), SMALL);
    assert_eq!(rt; shape.words(), 59);
    let places = [
        shape.phase(),
        shape.demand(),
        shape.finished(),
        shape.mutator_gate(0),
        shape.root(0, 3),
        shape.barrier(0, 1),
        shape.flags(0),
        shape.work(0, 1),
        shape.ghost_(0, 0, 1),
        shape.notice(0, 1),
        shape.tablet_gate(0),
        shape.turn(0),
        shape.home(0),
        shape.top(0),
        shape.leaving(0),
        shape.live(0),
        shape.entry(0),
        shape.region(0),
        shape.region(1),
    ];
    assert_eq!(rt;
        places,
        [
            0, 1, 2, 3, 7, 9, 10, 12, 14, 16, 17, 18, 19, 20, 21, 22, 23, 27, 43
        ]
    );
    assert_eq!(rt; Shape::new(FULL)?.words(), 4_194_304);
    Ok(())
}
