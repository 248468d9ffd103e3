//! Runs of an evacuation on the words of a heap. Words are written by their indexes: the slots of the notice
//! ring from 12 on, the tablets' gates from 14, homes from 18, tops from 20, what they leave from 22, entries
//! from 26, and regions from 34.

ghost use Rattle.std.specs.Prelude.{◌≡◌, ◌<◌, ◌+◌, true, length, IfSome};
ghost use Rattle.mako_words.specs.Entries.{entry_at};
ghost use Rattle.mako_shape.specs.Belongings.{IsAddress};
ghost use Rattle.mako_shape.specs.Places.{index, region_word, total};
ghost use Rattle.mako_step.specs.Acts.{FitsOp, found};
ghost use Rattle.mako_evac.specs.Evacuating.{Fits};
ghost use Rattle.mako_evac.specs.Low.{IsLow, KeepsLow};

use crate::words::entry_of;
use crate::{EvacStage, Evacuator, FreeStage, TabletStage};
use mako_model::Event;
use mako_shape::{Numbers, Shape};
use mako_step::{Act, FlatWords, Machine, Op, Step, Stepped, Words, make_step};
use std::alloc::Global;

/// Two tablets of one server, each of four entries, and three regions of 16 words.
const NUMBERS: Numbers = Numbers {
    mutators: 1,
    servers: 1,
    tablets: 2,
    entries: 4,
    words: 16,
    spare: 1,
    ring: 2,
    roots: 1,
    cycles: 5,
    generations: 3,
};

/// The words of all areas.
const COUNT: u32 = 82;

/// What a run came to.
#[derive(Clone, Copy, Debug, PartialEq, Eq)]
enum End {
    /// It has ended, with the notice slot that is due.
    Ended(u64),
    /// A look found this word, and waits.
    Waiting(u64),
}

/// What a run came to after so many steps, with the words that it left.
#[derive(Drop)]
struct Ran {
    steps: u32,
    end: End,
    words: FlatWords,
}

/// The first word of the regions.
fn regions_start(shape: &Shape) -> u32
    ensures { result ≡ index shape.now (region_word 0 0) }
{
    let _numbers = shape.numbers();
    shape.region(0)
}

/// What the operation finds in a word that is `before`. `None` where it might not stay within the word.
fn finding(op: Op, before: u64) -> Option<u64>
    ensures { IfSome result (λ word. (word ≡ found op before) × FitsOp op before) }
{
    match op {
        Op::Load | Op::Or(_) | Op::And(_) => Some(before),
        Op::Store(_) => Some(0),
        _ => None,
    }
}

/// Whether the entry of this word may be one whose record is copied.
fn is_low_entry(shape: &Shape, word: u64) -> bool
    ensures address { result ≡ true → (entry_at word).taken ≡ true → IsAddress shape.now (entry_at word).address }
    ensures low { result ≡ true → (entry_at word).taken ≡ true → (entry_at word).address + 7 < total shape.now }
{
    let entry = entry_of(word);
    !entry.taken || (entry.address >= regions_start(shape) && entry.address + 7 < shape.words())
}

/// Whether the machine can go on with this word, so that its copies stay low.
fn can_go_on(machine: &Evacuator, word: u64) -> bool
    ensures fits { result ≡ true → IsLow machine.now.stage → Fits machine.now word }
    ensures low { result ≡ true → KeepsLow machine.now.owner machine.now.stage word }
{
    let shape = &machine.owner.shape;
    match machine.stage {
        EvacStage::Evacuating(_, TabletStage::Draining) => word < 0x2_0000,
        EvacStage::Evacuating(_, TabletStage::LoadingHome) => {
            let numbers = shape.numbers();
            word < u64::from(numbers.servers * (numbers.tablets + numbers.spare))
        }
        EvacStage::Evacuating(_, TabletStage::LoadingEntry { .. }) => is_low_entry(shape, word),
        EvacStage::Evacuating(_, TabletStage::Copying { .. }) => word <= 7,
        EvacStage::Freeing(_, FreeStage::Loading) => entry_of(word).generation < 0xf_ffff,
        _ => true,
    }
}

/// Makes a step where the machine can go on with the word that it will find, and tells whether it could.
fn step(machine: &mut Evacuator, words: &mut FlatWords) -> Option<Stepped<Event>>
    requires words { length words.old ≡ COUNT }
    requires low { IsLow machine.old.stage }
    ensures words { length words.new ≡ COUNT }
    ensures low { IsLow machine.new.stage }
{
    let Step::Do(act) = machine.next() else {
        return Some(Stepped::Ended);
    };
    if act.word >= COUNT {
        return None;
    }
    let word = finding(act.op, words.word(act.word))?;
    if !can_go_on(machine, word) {
        return None;
    }
    Some(make_step(machine, words))
}

/// Runs the evacuation of server 0 in cycle 2, over words that are 0 but for those given. `None` where
/// it comes to a word that it cannot go on with.
fn run(alloc: Global, at: u64, given: &[(u32, u64)]) -> Option<Ran>
    requires { at < 2 }
    ensures { IfSome result (λ ran. length ran.words ≡ COUNT) }
{
    let shape = Shape::new(NUMBERS).ok()?;
    let mut words = FlatWords::zeros(alloc, COUNT).ok()?;
    for &(word, new) in given {
        if word >= COUNT {
            return None;
        }
        words.act(Act {
            word,
            op: Op::Store(new),
        });
    }
    let mut machine = Evacuator::new(shape, 0, 2, at);
    for steps in 0..100 {
        let end = match step(&mut machine, &mut words)? {
            Stepped::Moved(_) => continue,
            Stepped::Waiting(word) => End::Waiting(word),
            Stepped::Ended => End::Ended(machine.at),
        };
        return Some(Ran { steps, end, words });
    }
    None
}

/// The word of a taken entry of generation 0 and cycle 0, without its address.
const TAKEN: u64 = 0x8000_0000_0000_0000;

/// What a generation and a cycle add to the word of an entry.
const GENERATION: u64 = 0x800_0000_0000;

const CYCLE: u64 = 0x80_0000;

#[test]
fn copies_what_is_left_and_frees_what_is_dead(rt: HostRuntime) {
    // tablet 1 leaves region 1 for region 2; its entries are one of the cycle, a dead one, one of the cycle, and a free
    // one
    let given = [
        (19, 2),
        (23, 2),
        (30, TAKEN + 2 * CYCLE + 50),
        (31, TAKEN + GENERATION + CYCLE + 52),
        (32, TAKEN + 2 * GENERATION + 2 * CYCLE + 53),
        (50, 1),
        (51, 7),
        (53, 2),
        (54, 5),
        (55, 6),
    ];
    let ran = run(rt.alloc(), 1, &given).expect(&rt, "it runs");
    assert_eq!(rt; ran.end, End::Ended(1));
    assert_eq!(rt; ran.steps, 40);
    for (word, want) in [
        (15, 0),
        (21, 5),
        (23, 0),
        (30, 0x8000_0000_0100_0042),
        (31, 0x1000_0000_0000),
        (32, 0x8000_1000_0100_0044),
        (12, 1),
        (13, 0x8000_0000_0010_0005),
    ] {
        assert_eq!(rt; ran.words.word(word), want, "word {word}");
    }
    // both records, one behind the other
    for (word, want) in [(66, 1), (67, 7), (68, 2), (69, 5), (70, 6), (71, 0)] {
        assert_eq!(rt; ran.words.word(word), want, "word {word}");
    }
}

#[test]
fn ends_at_once_with_nothing_left(rt: HostRuntime) {
    let ran = run(rt.alloc(), 0, &[(26, TAKEN + 2 * CYCLE + 34)]).expect(&rt, "it runs");
    assert_eq!(rt; ran.end, End::Ended(1));
    assert_eq!(rt; ran.steps, 12);
    assert_eq!(rt; ran.words.word(12), 1);
    assert_eq!(rt; ran.words.word(26), 0x8000_0000_0100_0022);
}

#[test]
fn waits_at_a_gate_and_at_a_full_slot(rt: HostRuntime) {
    let inside = run(rt.alloc(), 0, &[(14, 1), (22, 3)]).expect(&rt, "it runs");
    assert_eq!(rt; inside.end, End::Waiting(0x1_0001));
    assert_eq!(rt; inside.steps, 2);
    assert_eq!(rt; inside.words.word(14), 0x1_0001);
    let full = run(rt.alloc(), 1, &[(26, TAKEN + CYCLE + 34), (13, 1)]).expect(&rt, "it runs");
    assert_eq!(rt; full.end, End::Waiting(1));
    assert_eq!(rt; full.words.word(26), GENERATION);
    assert_eq!(rt; full.words.word(13), 1);
}
