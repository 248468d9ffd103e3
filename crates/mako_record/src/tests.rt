//! Copies on the words of a heap, and addresses at the ends of a region. Words are written by their
//! indexes: the home of the one tablet at 19, its top at 20, entries from 23 on, region 0 from 27 on and
//! region 1 from 43 on.

ghost use Rattle.std.specs.Prelude.{◌≡◌, ◌<◌, length, replicate, IfSome};
ghost use Rattle.mako_words.specs.Entries.{FitsEntry};
ghost use Rattle.mako_record.specs.Copying as copying;
ghost use Rattle.mako_record.specs.Runs.{CanGo, written};
ghost use Rattle.mako_record.specs.declared.copier.CopyStage.TheVariants as stages;

use crate::{Copier, is_in_region};
use mako_shape::{Numbers, Shape};
use mako_step::{Act, FlatWords, Machine, Op, Step, Words, make_step};
use mako_words::EntryWord;
use std::alloc::Global;
use std::test::Fail;

/// One tablet of four entries, and two regions of 16 words.
const NUMBERS: Numbers = Numbers {
    mutators: 1,
    servers: 1,
    tablets: 1,
    entries: 4,
    words: 16,
    spare: 1,
    ring: 2,
    roots: 4,
    cycles: 5,
    generations: 3,
};

/// The words of all areas.
const COUNT: u32 = 59;

/// The entry of a record at the third word of region 0.
const ENTRY: EntryWord = EntryWord {
    taken: true,
    generation: 1,
    epoch: 2,
    address: 29,
};

/// Words that are 0 but for those given, all of which there are.
fn heap(alloc: Global, given: &[(u32, u64)]) -> Option<FlatWords>
    ensures count { IfSome result (λ words. length words ≡ COUNT) }
    ensures written { IfSome result (λ words. words ≡ written (replicate COUNT 0) given.now) }
{
    let mut words = FlatWords::zeros(alloc, COUNT).ok()?;
    for &(word, new) in given {
        if word >= COUNT {
            return None;
        }
        let op = Op::Store(new);
        words.act(Act { word, op });
    }
    Some(words)
}

/// Makes so many steps.
fn run<M: Machine, W: Words>(machine: &mut M, words: &mut W, steps: u32)
where
    M::Event: Drop,
    requires { CanGo M.next_of M.Fits M.fed steps machine.old (W.words words.old) }
    ensures { length (W.words words.new) ≡ length (W.words words.old) }
{
    for _ in 0..steps {
        let _stepped = make_step(machine, words);
    }
}

/// The words after so many steps of a copy of the entry's record into region 1. `None` where the copy
/// has not ended then, or not with this address.
fn copied(alloc: Global, given: &[(u32, u64)], steps: u32, address: u32) -> Option<FlatWords>
    requires { CanGo copying.next_of copying.Fits copying.fed steps (record {
      shape = NUMBERS;
      number = 1;
      entry = ENTRY;
      home = 1;
      stage = stages.LoadingTop;
    }) (written (replicate COUNT 0) given.now) }
    ensures { IfSome result (λ words. length words ≡ COUNT) }
{
    let shape = Shape::new(NUMBERS).ok()?;
    let mut words = heap(alloc, given)?;
    let mut copier = Copier::new(shape, 1, ENTRY, 1);
    run(&mut copier, &mut words, steps);
    let Step::Ended = copier.next() else {
        return None;
    };
    (copier.result() == address).then_some(words)
}

#[test]
fn copies_a_record_of_two_fields(rt: HostRuntime) {
    let given = [
        (19, 1),
        (20, 3),
        (24, 0x8000_0800_0100_001d),
        (29, 2),
        (30, 7),
        (31, 9),
        (32, 5),
    ];
    let words = copied(rt.alloc(), &given, 9, 46).expect(&rt, "it ends");
    for (word, want) in [
        (20, 6),
        (24, 0x8000_0800_0100_002e),
        (45, 0),
        (46, 2),
        (47, 7),
        (48, 9),
        (49, 0),
    ] {
        assert_eq!(rt; words.word(word), want, "word {word}");
    }
}

#[test]
fn copies_a_record_without_fields(rt: HostRuntime) {
    let words = copied(rt.alloc(), &[(20, 15)], 5, 58).expect(&rt, "it ends");
    for (word, want) in [(20, 16), (24, 0x8000_0800_0100_003a), (58, 0)] {
        assert_eq!(rt; words.word(word), want, "word {word}");
    }
}

#[test]
fn a_region_has_both_its_ends(rt: HostRuntime) -> Result<(), Fail> {
    let Ok(shape) = Shape::new(NUMBERS) else {
        return Err("the numbers are out of range".into());
    };
    for (address, want) in [(42, false), (43, true), (58, true), (59, false)] {
        assert_eq!(rt; is_in_region(&shape, 1, address), want, "address {address}");
    }
    Ok(())
}
