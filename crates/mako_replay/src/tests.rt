//! A worked script, in rounds.

use crate::{Order, Replayed, replay};
use mako_script::parse;
use mako_words::Memory;
use std::alloc::Global;
use std::test::Fail;

/// One mutator, each step of which was followed by hand.
const SCRIPT: &[u8] =
    b"mako 1\nservers 1\ntablets 1\nentries 4\nwords 16\nspare 1\nring 2\nroots 4\ncycles 10\ngens 8\nboard 1\nmutator\nnew a 1\nnum n 7\nput a 0 n\nget b a 0\nend\n";

/// More steps than the run has.
const MANY: u64 = 1_000_000;

fn carry_out(alloc: Global, steps: u64) -> Result<Replayed, Memory> {
    let Ok(script) = parse(alloc, SCRIPT) else {
        return Err(Memory);
    };
    replay(alloc, &script, Order::Turns, steps.min(MANY))
}

#[test]
fn makes_as_many_steps_as_are_given(rt: HostRuntime) -> Result<(), Fail> {
    for (steps, made, replies, finished) in [
        (0, 0, 0, false),
        (5, 5, 0, false),
        (36, 36, 0, false),
        (37, 37, 1, false),
        (123, 123, 4, false),
        (124, 124, 4, true),
        (MANY, 129, 4, true),
    ] {
        let replayed = carry_out(rt.alloc(), steps)?;
        assert_eq!(rt; replayed.steps_made, made);
        assert_eq!(rt; replayed.outcome.replies.len(), 1);
        assert_eq!(rt; replayed.outcome.replies[0].len(), replies);
        assert_eq!(rt; replayed.finished, finished);
    }
    Ok(())
}
