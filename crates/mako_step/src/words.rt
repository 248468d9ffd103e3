//! Words that change by acts.

ghost use Rattle.std.specs.Prelude.{◌≡◌, ◌<◌, ℕ, List, length, replicate, slice_index, IfOk};
ghost use Rattle.mako_step.specs.Acts.{FitsOp, found, words_after};

use crate::act::Act;
use mako_words::Memory;
use std::alloc::Global;

/// The words of a heap, numbered from 0.
pub trait Words: Sized {
    ghost words: { Self → List ℕ };

    /// This many words, all 0. `Memory` where there is not memory enough.
    fn zeros(alloc: Global, count: u32) -> Result<Self, Memory>
        ensures { IfOk result (λ w. words w ≡ replicate count 0) };

    /// Makes one act, and answers the word before it, or 0 for a store.
    fn act(&mut self, act: Act) -> u64
        requires within { act.word < length (words self.old) }
        requires fits { FitsOp act.op (slice_index (words self.old) act.word) }
        ensures found { result ≡ found act.op (slice_index (words self.old) act.word) }
        ensures after { words self.new ≡ words_after act (words self.old) };

    /// The word with this index.
    fn word(&self, index: u32) -> u64
        requires { index < length (words self.now) }
        ensures { result ≡ slice_index (words self.now) index };
}
