//! One operation on one word.

/// An operation on a word. Each is one atomic step, and sequentially consistent.
#[derive(Clone, Copy, Debug, PartialEq, Eq)]
pub enum Op {
    Load,
    Store(u64),
    /// A fetch-and-add. The sum stays within 64 bits.
    Add(u64),
    /// A fetch-and-subtract. The word is at least the number.
    Sub(u64),
    Or(u64),
    And(u64),
    Max(u64),
    /// A compare-and-exchange: the word becomes `new` where it was `expect`, and else stays.
    Exchange { expect: u64, new: u64 },
}

/// An operation on the word with this index among all words of the heap.
#[derive(Clone, Copy, Debug, PartialEq, Eq)]
pub struct Act {
    pub word: u32,
    pub op: Op,
}
