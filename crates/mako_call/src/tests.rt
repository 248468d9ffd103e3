//! Calls on the words of a heap. Words are written by their indexes: the phase at 0, the
//! demand at 1, the number of finished programs at 2, the mutator's gate at 3, its roots from 4 on and its
//! barrier slots from 8 on, the tablet's gate at 17, its turn at 18, home at 19, top at 20 and leaving at
//! 21, entries from 23 on, region 0 from 27 on and region 1 from 43 on.

ghost use Rattle.std.specs.Prelude.{◌≡◌, length, IfSome};

mod attempts;

use mako_shape::Numbers;
use mako_step::{Act, FlatWords, Op, Words};
use mako_words::Name;
use std::alloc::Global;

/// One tablet of four entries, and two regions of 16 words.
const NUMBERS: Numbers = Numbers {
    mutators: 1,
    servers: 1,
    tablets: 1,
    entries: 4,
    words: 16,
    spare: 1,
    ring: 2,
    roots: 4,
    cycles: 5,
    generations: 3,
};

/// The words of all areas.
const COUNT: u32 = 59;

/// The name of entry 1, of generation 0.
const ENTRY_ONE: Name = Name {
    entry: 1,
    generation: 0,
};

/// The entry of the board, at the first word of region 0.
const BOARD: u64 = 0x8000_0000_0000_001b;

/// The words that are 0 but for those given, each with its index. `None` where one of them is none.
fn heap(alloc: Global, given: &[(u32, u64)]) -> Option<FlatWords>
    ensures { IfSome result (λ words. length words ≡ COUNT) }
{
    let mut words = FlatWords::zeros(alloc, COUNT).ok()?;
    store(&mut words, given).then_some(words)
}

/// Stores these words, each given with its index. Whether there are all of them.
fn store(words: &mut FlatWords, given: &[(u32, u64)]) -> bool
    requires { length words.old ≡ COUNT }
    ensures { length words.new ≡ COUNT }
{
    for &(word, new) in given {
        let op = Op::Store(new);
        if carry_out(words, Act { word, op }).is_none() {
            return false;
        }
    }
    true
}

/// Carries out the act. `None` where there is no such word, or a sum or a difference would leave it.
fn carry_out(words: &mut FlatWords, act: Act) -> Option<u64>
    requires { length words.old ≡ COUNT }
    ensures { length words.new ≡ COUNT }
{
    if act.word >= COUNT {
        return None;
    }
    let before = words.word(act.word);
    let fits = match act.op {
        Op::Add(more) => more <= u64::MAX - before,
        Op::Sub(less) => less <= before,
        _ => true,
    };
    if !fits {
        return None;
    }
    Some(words.act(act))
}
