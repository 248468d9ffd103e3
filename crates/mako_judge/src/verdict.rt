//! What the judge says.

/// How far a front answers a script.
#[derive(Clone, Copy, Debug, PartialEq, Eq)]
pub enum Verdict {
    /// It answers each call of each program.
    ToTheEnd,
    /// It answers the calls that it has, and some are left.
    SoFar,
    /// It does not answer the script.
    No(Fault),
}

/// The first clause that a front does not meet, and the first point that does not meet it, where one
/// does not. Points are numbered from 0.
#[derive(Clone, Copy, Debug, PartialEq, Eq)]
pub struct Fault {
    pub clause: Clause,
    pub place: Option<usize>,
}

/// What is asked of a front that answers a script, in the order in which the judge asks it.
#[derive(Clone, Copy, Debug, PartialEq, Eq)]
pub enum Clause {
    /// Each point is lawful where it stands.
    Legal,
    /// Each finished cycle has begun.
    Finished,
    /// All cycles that have begun are finished, but for the last.
    Unfinished,
    /// Each finished cycle freed the names that died in it, in order.
    Freed,
    /// A cycle that was waited for is finished, and began during the wait.
    Waits,
    /// Each name is that of an entry, and in a generation, that there is.
    Names,
    /// An entry is used again only after its object is dead, in the next generation.
    Reuses,
    /// A new object is refused only where there is no room.
    Starved,
    /// The calls of each mutator are the beginning of its program.
    Programs,
}
