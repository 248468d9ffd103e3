//! A program of one command, step by step.

use crate::{Core, Turn};
use mako_model::{Call, Point, Reply};
use mako_mutator::Place;
use mako_script::parse;
use mako_step::FlatWords;
use mako_words::Value;
use std::test::Fail;

const SCRIPT: &[u8] =
    b"mako 1\nservers 1\ntablets 1\nentries 4\nwords 16\nspare 1\nring 2\nroots 4\ncycles 10\ngens 8\nboard 1\nmutator\nnum n 7\nend\n";

/// The reply to the one command, and the point that it makes.
const REPLY: Reply = Reply::Value(Value::Num(7));

const POINT: Point = Point::Did {
    mutator: 0,
    call: Call::Num { root: 1, value: 7 },
    reply: REPLY,
};

#[test]
fn answers_a_command(rt: HostRuntime) -> Result<(), Fail> {
    let Ok(script) = parse(rt.alloc(), SCRIPT) else {
        panic!(rt; "no script");
    };
    let mut core = Core::<FlatWords>::start(rt.alloc(), &script)?;
    assert_eq!(rt; core.seats(), 3);
    assert_eq!(rt; core.shape().words(), 59);
    // the roots 0 and 1, the tablet's top, the entry of the board, and its header
    for (index, word) in [
        (4, 0x8000_0000_0000_0000),
        (5, 0),
        (20, 2),
        (23, 0x8000_0000_0000_001b),
        (27, 1),
    ] {
        assert_eq!(rt; core.word(index), word, "at {index}");
    }
    assert_eq!(rt; core.place(0), Place::Before(0));
    assert_eq!(rt; core.step(1), Turn::Waiting(0));
    assert_eq!(rt; core.step(0), Turn::Moved);
    assert_eq!(rt; core.place(0), Place::Within(0));
    assert_eq!(rt; core.journal().len(), 0);
    assert_eq!(rt; core.step(0), Turn::Moved);
    assert_eq!(rt; core.word(5), 0x4000_0000_0000_0007);
    assert_eq!(rt; core.journal().len(), 1);
    assert_eq!(rt; core.journal().get(0), POINT);
    assert_eq!(rt; core.step(0), Turn::Moved);
    assert_eq!(rt; core.step(0), Turn::Moved);
    assert_eq!(rt; core.place(0), Place::Ended);
    assert_eq!(rt; core.step(0), Turn::Ended);
    assert_eq!(rt; core.cycles().len(), 0);
    let outcome = core.finish();
    assert_eq!(rt; outcome.replies.len(), 1);
    assert_eq!(rt; outcome.replies[0].as_slice(), [REPLY].as_slice());
    Ok(())
}
