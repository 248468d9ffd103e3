//! What one attempt of a call comes to.

use crate::reply::Reply;

/// Why an attempt paused, with the word that it saw.
#[derive(Clone, Copy, Debug, PartialEq, Eq)]
pub enum Pause {
    /// The mutator's own gate was shut.
    Stopped(u64),
    /// The gate of a tablet was shut.
    Shut { tablet: u32, word: u64 },
    /// The turn of a tablet was held by another mutator.
    Busy { tablet: u32, word: u64 },
    /// A tablet was being evacuated.
    Moving { tablet: u32, word: u64 },
    /// The mutator's slot for an overwritten reference was still filled.
    Barrier { slot: u32, word: u64 },
    /// The cycle that was asked for has not finished.
    Cycle { wanted: u32, word: u64 },
}

/// What one attempt of a call comes to.
#[derive(Clone, Copy, Debug, PartialEq, Eq)]
pub enum Attempt {
    /// The call is answered, and its point is in the history.
    Answer(Reply),
    /// There was no room, and no point was added.
    Full,
    /// The call is to be attempted again.
    Pause(Pause),
}
