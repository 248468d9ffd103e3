//! What seats know. No value of these types is made: they stand in proofs alone.

use std::collections::LinkedList;

/// Where a worker stands.
pub enum Hand {
    /// It holds nothing.
    Free,
    /// It saw a piece in its box, which it will take.
    Reaching,
    /// It holds a piece.
    Holding,
    /// It holds a piece, and another is on its way: it is counted as sent and is in no box yet.
    Sending,
}

/// What a worker's seat knows.
pub struct WorkerView {
    pub number: u64,
    pub seeds: u64,
    pub sends: u64,
    pub handled: u64,
    /// The number found at the last look at the box.
    pub looked: u64,
    /// The index of the word of the box that it filled last.
    pub filled: u64,
    pub hand: Hand,
}

/// The numbers that one pass over the workers found, as far as it has come.
pub struct Reading {
    pub sent: LinkedList<u64>,
    pub handled: LinkedList<u64>,
}

/// What the poller's seat knows: how many workers there are, what the pass before the last found, what the last one
/// found, how many passes were begun, whether that is the second one of its poll, and what the last poll that told
/// anything told.
pub struct PollView {
    pub count: u64,
    pub first: Reading,
    pub later: Reading,
    pub passes: u64,
    pub again: bool,
    pub told: Option<u64>,
}

/// What a seat knows: of the workers whose seats it has, and of polls, if it is the poller's.
pub struct View {
    pub workers: LinkedList<WorkerView>,
    pub poll: Option<PollView>,
}
