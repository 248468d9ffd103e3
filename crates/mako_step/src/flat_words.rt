//! The words of the heap in one vector.

ghost use Rattle.std.specs.Prelude.{◌≡◌};

use crate::act::{Act, Op};
use crate::words::Words;
use mako_words::Memory;
use std::alloc::Global;
use std::marker::Model;

/// All words of the heap, in one vector.
#[derive(Drop)]
pub struct FlatWords {
    words: Vec<u64>,
}

impl Model for FlatWords {
    ghost use Rattle.std.specs.Prelude.{List, ℕ};

    ghost Value = { List ℕ };

    ghost view = { λ w. w.words.items };
}

impl Words for FlatWords {
    ghost words = { λ w. w };

    fn zeros(alloc: Global, count: u32) -> Result<FlatWords, Memory> {
        let words = vec![in alloc; 0u64; count as usize].map_err(|_| Memory)?;
        Ok(FlatWords { words })
    }

    // where the operation is known, only its own arm is left
    #[inline(always)]
    fn act(&mut self, act: Act) -> u64 {
        let word = &mut self.words[act.word as usize];
        let before = *word;
        match act.op {
            Op::Load => {}
            Op::Store(new) => {
                *word = new;
                return 0;
            }
            Op::Add(number) => *word = before + number,
            Op::Sub(number) => *word = before - number,
            Op::Or(bits) => *word = before | bits,
            Op::And(bits) => *word = before & bits,
            Op::Max(number) => *word = before.max(number),
            Op::Exchange { expect, new } => {
                if before == expect {
                    *word = new;
                }
            }
        }
        before
    }

    fn word(&self, index: u32) -> u64 {
        self.words[index as usize]
    }
}
