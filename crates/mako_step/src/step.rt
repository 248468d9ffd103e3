//! What a machine does next.

ghost use Rattle.std.specs.Prelude.{◌≡◌};
ghost use Rattle.mako_step.specs.Acts.{does};
ghost use Rattle.mako_step.specs.declared.act.Op.TheVariants as ops;

use crate::act::{Act, Op};

/// What a machine does next.
#[derive(Clone, Copy, Debug, PartialEq, Eq)]
pub enum Step {
    /// It makes this act, and is to be fed the word that the act found.
    Do(Act),
    /// It is at its end.
    Ended,
}

/// The acts of machines. Each takes the index of its word among all words.
impl Step {
    pub fn load(word: u32) -> Step
        ensures { result ≡ does word ops.Load }
    {
        Step::Do(Act { word, op: Op::Load })
    }

    pub fn store(word: u32, new: u64) -> Step
        ensures { result ≡ does word (ops.Store new) }
    {
        Step::Do(Act {
            word,
            op: Op::Store(new),
        })
    }

    pub fn add(word: u32, number: u64) -> Step
        ensures { result ≡ does word (ops.Add number) }
    {
        Step::Do(Act {
            word,
            op: Op::Add(number),
        })
    }

    pub fn sub(word: u32, number: u64) -> Step
        ensures { result ≡ does word (ops.Sub number) }
    {
        Step::Do(Act {
            word,
            op: Op::Sub(number),
        })
    }

    pub fn or(word: u32, bits: u64) -> Step
        ensures { result ≡ does word (ops.Or bits) }
    {
        Step::Do(Act {
            word,
            op: Op::Or(bits),
        })
    }

    pub fn and(word: u32, bits: u64) -> Step
        ensures { result ≡ does word (ops.And bits) }
    {
        Step::Do(Act {
            word,
            op: Op::And(bits),
        })
    }

    pub fn max(word: u32, number: u64) -> Step
        ensures { result ≡ does word (ops.Max number) }
    {
        Step::Do(Act {
            word,
            op: Op::Max(number),
        })
    }

    /// The word becomes `new` where it is `expect`, and else stays.
    pub fn exchange(word: u32, expect: u64, new: u64) -> Step
        ensures { result ≡ does word (ops.Exchange expect new) }
    {
        Step::Do(Act {
            word,
            op: Op::Exchange { expect, new },
        })
    }
}
