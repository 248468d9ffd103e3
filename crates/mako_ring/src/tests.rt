//! Puts and takes on the words of three servers with rings of one slot. Words are given by their
//! indexes: the flags from 6 on, the work rings from 9 and the ghost rings from 12, by sender.

ghost use Rattle.std.specs.Prelude.{◌≡◌, ℕ, true, length, IfSome};
ghost use Rattle.mako_step.specs.Acts.{FitsOp};

use crate::{Put, Putting, Ring, Take, Taking, Window, next_place};
use mako_shape::{Numbers, Shape};
use mako_step::{Act, FlatWords, Machine, Op, Step, Words, make_step};
use std::test::Fail;

const NUMBERS: Numbers = Numbers {
    mutators: 1,
    servers: 3,
    tablets: 1,
    entries: 1,
    words: 16,
    spare: 1,
    ring: 1,
    roots: 1,
    cycles: 1,
    generations: 1,
};

/// The words of all areas.
const COUNT: u32 = 141;

/// The first slot of the ghost ring from server 0 to server 2.
const GHOST: u32 = 14;

/// Before any put.
const NONE_PUT: Window = Window { head: 0, tail: 0 };

/// With one word put, and not seen taken.
const ONE_PUT: Window = Window { head: 1, tail: 0 };

/// Whether the operation may be made on every word.
fn is_free(op: Op) -> bool
    ensures { result ≡ true → (n : ℕ) → FitsOp op n }
{
    match op {
        Op::Load | Op::Store(_) | Op::Or(_) => true,
        _ => false,
    }
}

/// Runs a put to its end. `None` where it needs a word that is not there, or too many steps.
fn run_put(words: &mut FlatWords, mut put: Put) -> Option<Putting>
    requires { length words.old ≡ COUNT }
    ensures { length words.new ≡ COUNT }
{
    for _ in 0..4 {
        let Step::Do(act) = put.next() else {
            return Some(put.result());
        };
        if act.word >= COUNT || !is_free(act.op) {
            return None;
        }
        make_step(&mut put, words);
    }
    None
}

/// Runs a take to its end. `None` where it needs a word that is not there, or too many steps.
fn run_take(words: &mut FlatWords, mut take: Take) -> Option<Taking>
    requires { length words.old ≡ COUNT }
    ensures { length words.new ≡ COUNT }
{
    for _ in 0..4 {
        let Step::Do(act) = take.next() else {
            return Some(take.result());
        };
        if act.word >= COUNT || !is_free(act.op) {
            return None;
        }
        make_step(&mut take, words);
    }
    None
}

#[test]
fn a_server_puts_and_takes_with_flags(rt: HostRuntime) -> Result<(), Fail> {
    let shape = Shape::new(NUMBERS)?;
    let mut words = FlatWords::zeros(rt.alloc(), COUNT)?;
    let ring = Ring::Ghost {
        sender: 0,
        receiver: 2,
    };
    let put = run_put(&mut words, Put::new(shape, ring, NONE_PUT, 77));
    assert_eq!(rt; put, Some(Putting::Stored(ONE_PUT)));
    assert_eq!(rt; (words.word(GHOST), words.word(6)), (77, 6));
    let second = run_put(&mut words, Put::new(shape, ring, ONE_PUT, 78));
    assert_eq!(rt; second, Some(Putting::Occupied(77)));
    let take = run_take(&mut words, Take::new(shape, ring, 0));
    assert_eq!(rt; take, Some(Taking::Got(77)));
    assert_eq!(rt; (words.word(GHOST), words.word(8)), (0, 5));
    assert_eq!(rt;
        run_take(&mut words, Take::new(shape, ring, 0)),
        Some(Taking::Empty)
    );
    // the full window sees by the empty slot that its word was taken
    let third = run_put(&mut words, Put::new(shape, ring, ONE_PUT, 79));
    assert_eq!(rt; third, Some(Putting::Stored(ONE_PUT)));
    Ok(())
}

#[test]
fn the_collector_puts_and_takes_without_flags(rt: HostRuntime) -> Result<(), Fail> {
    let shape = Shape::new(NUMBERS)?;
    let mut words = FlatWords::zeros(rt.alloc(), COUNT)?;
    let put = run_put(&mut words, Put::new(shape, Ring::Work(1), NONE_PUT, 77));
    assert_eq!(rt; put, Some(Putting::Stored(ONE_PUT)));
    assert_eq!(rt; (words.word(10), words.word(7)), (77, 0));
    let barrier = run_put(&mut words, Put::new(shape, Ring::Barrier(0), NONE_PUT, 78));
    assert_eq!(rt; barrier, Some(Putting::Stored(ONE_PUT)));
    let take = run_take(&mut words, Take::new(shape, Ring::Barrier(0), 0));
    assert_eq!(rt; take, Some(Taking::Got(78)));
    assert_eq!(rt; (words.word(6), words.word(7), words.word(8)), (0, 0, 0));
    assert_eq!(rt; next_place(1, 0), 0);
    assert_eq!(rt; next_place(3, 1), 2);
    Ok(())
}
