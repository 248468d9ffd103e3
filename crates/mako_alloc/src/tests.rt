//! Runs of a `new` on the words of a heap. Words are written by their indexes: the tablets' gates from 10
//! on, their turns from 12, homes from 14, tops from 16, leavings from 18, entries from 22 and regions from 30.

ghost use Rattle.std.specs.Prelude.{◌≡◌, ◌<◌, true, length, IfSome};
ghost use Rattle.mako_step.specs.Acts.{FitsOp, found};
ghost use Rattle.mako_alloc.specs.Allocating.{Fits};

use crate::{Found, NewMachine, NewStage};
use mako_model::Pause;
use mako_shape::{Numbers, Shape};
use mako_step::{Act, FlatWords, Machine, Op, Step, Words, make_step};
use mako_words::Name;
use std::alloc::Global;

/// Two tablets of one server, each of four entries, and three regions of 16 words.
const NUMBERS: Numbers = Numbers {
    mutators: 1,
    servers: 1,
    tablets: 2,
    entries: 4,
    words: 16,
    spare: 1,
    ring: 1,
    roots: 1,
    cycles: 5,
    generations: 3,
};

/// The words of all areas.
const COUNT: u32 = 78;

/// The word of a taken entry.
const TAKEN: u64 = 0x8000_0000_0000_0000;

/// The word of a free entry of generation 1, without its zeros.
const GENERATION: u64 = 0x800_0000_0000;

/// What a run came to, with the words that it left.
#[derive(Drop)]
struct Ran {
    steps: u32,
    found: Found,
    words: FlatWords,
}

/// Whether the machine may make this operation on a word that is `before`.
fn can_go_on(machine: &NewMachine, op: Op, before: u64) -> bool
    ensures op { result ≡ true → FitsOp op before }
    ensures fits { result ≡ true → Fits machine.now (found op before) }
{
    let (fits_op, word) = match op {
        Op::Add(number) => (before <= u64::MAX - number, before),
        Op::Sub(number) => (number <= before, before),
        Op::Store(_) => (true, 0),
        _ => (true, before),
    };
    let numbers = machine.job.shape.numbers();
    let fits = match machine.progress.stage {
        NewStage::Arriving => word < 0x2_0000,
        NewStage::LoadingTop => word <= u64::from(numbers.words),
        NewStage::LoadingHome { .. } => word
            < u64::from(numbers.servers * (numbers.tablets + numbers.spare)),
        _ => true,
    };
    fits_op && fits
}

/// Runs a `new` of mutator 0 in cycle 2, over words that are 0 but for those given. `None` where it
/// comes to a word that it cannot go on with, or does not end.
fn run(alloc: Global, fields: u8, given: &[(u32, u64)]) -> Option<Ran>
    requires { fields < 15 }
    ensures { IfSome result (λ ran. length ran.words ≡ COUNT) }
{
    let shape = Shape::new(NUMBERS).ok()?;
    let mut words = FlatWords::zeros(alloc, COUNT).ok()?;
    for &(word, new) in given {
        if word >= COUNT {
            return None;
        }
        words.act(Act {
            word,
            op: Op::Store(new),
        });
    }
    let mut machine = NewMachine::new(shape, 0, fields, 2);
    for steps in 0..100 {
        let Step::Do(act) = machine.next() else {
            let found = machine.result();
            return Some(Ran {
                steps,
                found,
                words,
            });
        };
        if act.word >= COUNT || !can_go_on(&machine, act.op, words.word(act.word)) {
            return None;
        }
        make_step(&mut machine, &mut words);
    }
    None
}

/// Whether a run took so many steps to this.
fn came_to(ran: Option<Ran>, steps: u32, found: Found) -> bool {
    match ran {
        Some(ran) => ran.steps == steps && ran.found == found,
        None => false,
    }
}

fn made(entry: u32, generation: u32, tablet: u32) -> Found {
    Found::Made {
        name: Name { entry, generation },
        tablet,
    }
}

#[test]
fn makes_a_record_and_then_its_entry(rt: HostRuntime) {
    // the first entry is taken, the second free with generation 2; the home is region 1, of which 5 words are used
    let given = [
        (14, 1),
        (16, 5),
        (22, TAKEN),
        (23, 2 * GENERATION),
        (52, 7),
        (54, 7),
    ];
    let ran = run(rt.alloc(), 3, &given).expect(&rt, "it runs");
    assert_eq!(rt; ran.found, made(1, 2, 0));
    assert_eq!(rt; ran.steps, 13);
    for (word, want) in [
        (51, 3),
        (52, 0),
        (53, 0),
        (54, 0),
        (16, 9),
        (10, 1),
        (12, 1),
        (23, 0x8000_1000_0100_0033),
    ] {
        assert_eq!(rt; ran.words.word(word), want, "word {word}");
    }
}

#[test]
fn pauses_with_the_first_reason(rt: HostRuntime) {
    let shut = Found::Pause(Pause::Shut {
        tablet: 0,
        word: 0x1_0002,
    });
    let busy = Found::Pause(Pause::Busy { tablet: 0, word: 3 });
    let moving = Found::Pause(Pause::Moving { tablet: 0, word: 2 });
    assert!(rt;
        came_to(
            run(rt.alloc(), 1, &[(10, 0x1_0002), (11, 0x1_0000)]),
            4,
            shut
        )
    );
    assert!(rt; came_to(run(rt.alloc(), 1, &[(12, 3), (13, 5)]), 6, busy));
    assert!(rt; came_to(run(rt.alloc(), 1, &[(18, 2), (13, 5)]), 8, moving));
}

#[test]
fn gives_back_what_it_took(rt: HostRuntime) {
    let given = [(18, 2), (17, 16), (11, 4)];
    let ran = run(rt.alloc(), 0, &given).expect(&rt, "it runs");
    for (word, want) in [(10, 0), (11, 4), (12, 0), (13, 0)] {
        assert_eq!(rt; ran.words.word(word), want, "word {word}");
    }
}

#[test]
fn is_full_without_room_or_a_free_entry(rt: HostRuntime) {
    let retired = 3 * GENERATION;
    assert!(rt; came_to(run(rt.alloc(), 2, &[(16, 14), (17, 14)]), 12, Found::Full));
    assert!(rt; came_to(run(rt.alloc(), 1, &[(16, 14), (17, 14)]), 10, made(0, 0, 0)));
    let used = [
        (22, TAKEN),
        (23, TAKEN),
        (24, retired),
        (25, TAKEN),
        (26, retired),
        (27, retired),
        (28, TAKEN),
        (29, TAKEN),
    ];
    assert!(rt; came_to(run(rt.alloc(), 0, &used), 20, Found::Full));
}

#[test]
fn passes_over_retired_entries_and_tablets_that_it_cannot_try(rt: HostRuntime) {
    assert!(rt;
        came_to(
            run(rt.alloc(), 0, &[(22, 3 * GENERATION)]),
            10,
            made(1, 0, 0)
        )
    );
    assert!(rt; came_to(run(rt.alloc(), 1, &[(10, 0x1_0000)]), 12, made(4, 0, 1)));
}
