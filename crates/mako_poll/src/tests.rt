//! Polls of three servers with rings of one slot. The words of their flags are those from 6 on.

ghost use Rattle.std.specs.Prelude.{◌≡◌, true, length};
ghost use Rattle.mako_step.specs.Acts.{FitsOp, found};
ghost use Rattle.mako_poll.specs.Polls.{Fits};

use crate::{Polled, Poller};
use mako_shape::{Numbers, Shape};
use mako_step::{Act, FlatWords, Machine, Op, Step, Words, make_step};
use mako_words::FlagWord;
use std::test::Fail;

const NUMBERS: Numbers = Numbers {
    mutators: 1,
    servers: 3,
    tablets: 1,
    entries: 1,
    words: 16,
    spare: 1,
    ring: 1,
    roots: 1,
    cycles: 1,
    generations: 1,
};

/// The words of all areas.
const COUNT: u32 = 141;

/// The flags of servers 0 and 1, and the slot of the ring from server 1 to server 0.
const FLAGS_OF_0: u32 = 6;

const FLAGS_OF_1: u32 = 7;

const FROM_1_TO_0: u32 = 15;

/// Whether the poll can go on with this operation on a word that is `before`.
fn can_go_on(poller: &Poller, op: Op, before: u64) -> bool
    ensures op { result ≡ true → FitsOp op before }
    ensures fits { result ≡ true → Fits poller.now (found op before) }
{
    let _poller = poller;
    match op {
        Op::Load | Op::And(_) => before < 8,
        _ => false,
    }
}

/// Makes so many steps, or fewer where the poll ends, and answers how many.
fn run(words: &mut FlatWords, poller: &mut Poller, limit: u32) -> u32
    requires { length words.old ≡ COUNT }
    ensures { length words.new ≡ COUNT }
{
    for steps in 0..limit {
        let Step::Do(act) = poller.next() else {
            return steps;
        };
        if act.word >= COUNT || !can_go_on(poller, act.op, words.word(act.word)) {
            return steps;
        }
        make_step(poller, words);
    }
    limit
}

/// What the poll came to, at its end.
fn answer(poller: &Poller) -> Option<Polled> {
    match poller.next() {
        Step::Do(_) => None,
        Step::Ended => Some(poller.result()),
    }
}

#[test]
fn is_told_where_all_flags_are_clear(rt: HostRuntime) -> Result<(), Fail> {
    let mut words = FlatWords::zeros(rt.alloc(), COUNT)?;
    let mut poller = Poller::new(Shape::new(NUMBERS)?);
    assert_eq!(rt; run(&mut words, &mut poller, 9), 6);
    assert_eq!(rt; answer(&poller), Some(Polled::Told));
    Ok(())
}

#[test]
fn pass_1_finds_a_server_at_work(rt: HostRuntime) -> Result<(), Fail> {
    let mut words = FlatWords::zeros(rt.alloc(), COUNT)?;
    let mut poller = Poller::new(Shape::new(NUMBERS)?);
    words.act(Act {
        word: 7,
        op: Op::Store(7),
    });
    assert_eq!(rt; run(&mut words, &mut poller, 9), 2);
    assert_eq!(rt;
        answer(&poller),
        Some(Polled::NotYet { server: 1, word: 7 })
    );
    assert_eq!(rt; words.word(7), 3);
    Ok(())
}

#[test]
fn pass_2_finds_a_server_that_was_given_work(rt: HostRuntime) -> Result<(), Fail> {
    let mut words = FlatWords::zeros(rt.alloc(), COUNT)?;
    let mut poller = Poller::new(Shape::new(NUMBERS)?);
    assert_eq!(rt; run(&mut words, &mut poller, 3), 3);
    words.act(Act {
        word: 8,
        op: Op::Or(5),
    });
    assert_eq!(rt; run(&mut words, &mut poller, 9), 3);
    assert_eq!(rt;
        answer(&poller),
        Some(Polled::NotYet { server: 2, word: 5 })
    );
    Ok(())
}

/// Between two questions of pass 1, server 1 sends its last name to server 0 and comes to rest: each
/// server is clean when it is asked, and server 0 has the name in hand. Pass 2 finds that.
#[test]
fn one_pass_is_fooled(rt: HostRuntime) -> Result<(), Fail> {
    let mut words = FlatWords::zeros(rt.alloc(), COUNT)?;
    let mut poller = Poller::new(Shape::new(NUMBERS)?);
    words.act(Act {
        word: FLAGS_OF_1,
        op: Op::Or(FlagWord::BUSY),
    });
    assert_eq!(rt; run(&mut words, &mut poller, 1), 1);
    words.act(Act {
        word: FLAGS_OF_1,
        op: Op::Or(FlagWord::GHOST + FlagWord::CHANGED),
    });
    words.act(Act {
        word: FROM_1_TO_0,
        op: Op::Store(77),
    });
    words.act(Act {
        word: FLAGS_OF_0,
        op: Op::Or(FlagWord::BUSY + FlagWord::CHANGED),
    });
    words.act(Act {
        word: FROM_1_TO_0,
        op: Op::Store(0),
    });
    words.act(Act {
        word: FLAGS_OF_1,
        op: Op::And(!FlagWord::BUSY),
    });
    words.act(Act {
        word: FLAGS_OF_1,
        op: Op::And(!FlagWord::GHOST),
    });
    assert_eq!(rt; run(&mut words, &mut poller, 2), 2);
    assert_eq!(rt; answer(&poller), None, "pass 1 found all servers clean");
    assert_eq!(rt; run(&mut words, &mut poller, 9), 1);
    assert_eq!(rt;
        answer(&poller),
        Some(Polled::NotYet { server: 0, word: 5 })
    );
    Ok(())
}
